//! The processors of a pardo as it begins.

ghost use Rattle.std.specs.Prelude.{◌≡◌, ◌<◌, ◌≤◌, ◌-◌, ◌+ℤ◌, pos, FitsSigned, IfOk, IfSome, MatchOption};
ghost use Rattle.std.specs.Int.{w64};
ghost use Rattle.pram_meaning.specs.Store.{members, numbers};
ghost use Rattle.pram_model.specs.Layout.{width};
ghost use Rattle.abstract_runs.specs.Rows.{AreActive};
ghost use Rattle.abstract_runs.specs.Standing.{AreMembersOf};

use crate::active::Active;
use crate::standing::Member;
use intervals::Interval;
use pram_meaning::team::numbers_below;
use std::alloc::{AllocError, Global};

/// How many integers there are from low to high, unless there are more than the most.
pub(crate) fn count_of(most: u32, low: i64, high: i64) -> Option<u32>
    ensures count { MatchOption result (most < width low high) (λ c. (c ≡ width low high) × (c ≤ most)) }
    ensures fits { IfSome result (λ c. FitsSigned w64 (low +ℤ pos (c - 1))) }
{
    if high < low {
        return Some(0);
    }
    let span = high.abs_diff(low);
    if span >= u64::from(most) {
        return None;
    }
    Some(span as u32 + 1)
}

// The index of member j.
fn index_at(first: i64, j: u32, count: u32) -> i64
    requires below { j < count }
    requires fits { FitsSigned w64 (first +ℤ pos (count - 1)) }
    ensures { result ≡ first +ℤ pos j }
{
    first + i64::from(j)
}

/// The processors from the first index on, whose locals are 0.
#[tactic(auto, using(crate::proofs::Gathered::team_starts, crate::proofs::Gathered::team_goes, crate::proofs::Gathered::team_ends))]
pub(crate) fn gather(
    alloc: Global,
    first: i64,
    count: u32,
    locals: usize,
) -> Result<Vec<Member>, AllocError>
    requires { FitsSigned w64 (first +ℤ pos (count - 1)) }
    // They stand for the processors as a pardo begins.
    ensures { IfOk result (λ team. AreMembersOf (members first count locals) team.items) }
{
    let mut team = Vec::with_capacity(alloc, count as usize)?;
    for j in 0..count {
        let own = vec![in alloc; Interval::point(0); locals]?;
        team.push(Member {
            index: index_at(first, j, count),
            locals: own,
        })?;
    }
    Ok(team)
}

// These members, each of them sure.
fn sure(alloc: Global, numbers: &[u32]) -> Result<Vec<Active>, AllocError>
    ensures { IfOk result (λ all. AreActive all.items numbers.now) }
{
    let mut all = Vec::with_capacity(alloc, numbers.len())?;
    for k in 0..numbers.len() {
        all.push(Active {
            member: numbers[k],
            is_sure: true,
        })?;
    }
    Ok(all)
}

/// All of so many processors, each of them sure.
pub(crate) fn all_active(alloc: Global, count: u32) -> Result<Vec<Active>, AllocError>
    ensures { IfOk result (λ all. AreActive all.items (numbers 0 count)) }
{
    let numbers = numbers_below(alloc, count)?;
    sure(alloc, &numbers)
}
