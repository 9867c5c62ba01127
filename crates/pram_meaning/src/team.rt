//! The processors of a pardo.

ghost use Rattle.std.specs.Prelude.{FitsSigned, ◌+ℤ◌, pos, ◌≡◌, IfOk, ◌<◌, ◌-◌, map};
ghost use Rattle.std.specs.Int.{w64};
ghost use Rattle.pram_meaning.specs.Store.{members, numbers, with_local};
ghost use Rattle.pram_meaning.specs.Together as spec;
ghost use Rattle.pram_meaning.specs.Judging.{part_is};
ghost use Rattle.pram_meaning.specs.Sets.{member_is};

use crate::part::Part;
use crate::run::{set_number, zeros};
use std::alloc::{AllocError, Global};

/// A processor of a pardo: its index and its locals.
#[derive(Drop)]
pub struct Member {
    pub index: i64,
    pub locals: Vec<i64>,
}

// The index of member j.
fn index_at(low: i64, j: u32, count: u32) -> i64
    requires below { j < count }
    requires fits { FitsSigned w64 (low +ℤ pos (count - 1)) }
    ensures { result ≡ low +ℤ pos j }
{
    low + i64::from(j)
}

/// The members of a pardo, whose locals are 0.
#[tactic(auto, using(crate::proofs::Teams::team_start, crate::proofs::Teams::team_go, crate::proofs::Teams::team_end))]
pub fn gather(alloc: Global, low: i64, count: u32, locals: usize) -> Result<Vec<Member>, AllocError>
    requires { FitsSigned w64 (low +ℤ pos (count - 1)) }
    ensures { IfOk result (λ team. map member_is team.items ≡ members low count locals) }
{
    let mut team = Vec::with_capacity(alloc, count as usize)?;
    for j in 0..count {
        let own = zeros(alloc, locals)?;
        let member = Member {
            index: index_at(low, j, count),
            locals: own,
        };
        team.push(member)?;
    }
    Ok(team)
}

/// The numbers below a count.
#[tactic(auto, using(crate::proofs::Teams::numbers_start, crate::proofs::Teams::numbers_go, crate::proofs::Teams::numbers_end))]
pub fn numbers_below(alloc: Global, count: u32) -> Result<Vec<u32>, AllocError>
    ensures { IfOk result (λ all. all.items ≡ numbers 0 count) }
{
    let mut all = Vec::with_capacity(alloc, count as usize)?;
    for v in 0..count {
        all.push(v)?;
    }
    Ok(all)
}

/// The value of a part that doesn't fault.
pub fn value_in(x: &Part) -> i64
    ensures { result ≡ spec.value_in (part_is x.now).attempt }
{
    match x.outcome {
        Ok(effect) => effect.value,
        Err(_) => 0,
    }
}

// One processor's local gets its value.
#[tactic(auto, using(crate::proofs::Sets::local_is, crate::proofs::Sets::local_none))]
fn set_local(team: &mut Vec<Member>, place: usize, x: &Part)
    ensures { map member_is team.new.items ≡ with_local place (part_is x.now).member (spec.value_in (part_is x.now).attempt)
        (map member_is team.old.items) }
{
    let value = value_in(x);
    if let Some(member) = team.get_mut(x.member as usize) {
        set_number(&mut member.locals, place, value);
    }
}

/// A local of each processor gets its value.
pub fn set_locals(team: &mut Vec<Member>, place: usize, parts: &[Part])
    ensures { map member_is team.new.items ≡ spec.with_locals place (map part_is parts.now) (map member_is team.old.items) }
{
    for x in parts {
        set_local(team, place, x);
    }
}
