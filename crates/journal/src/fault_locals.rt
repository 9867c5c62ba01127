//! The locals of the processors that a fault is of.

ghost use Rattle.std.specs.Prelude.{◌≡◌, ◌++◌, IfOk, OnOk, map};
ghost use Rattle.pram_meaning.specs.Judging.{part_is};
ghost use Rattle.pram_meaning.specs.Sets.{member_is};
ghost use Rattle.pram_meaning.specs.Store.{member_of};
ghost use Rattle.journal.specs.Entries.{own_is};
ghost use Rattle.journal.specs.FaultLocals as spec;

use crate::OwnLocals;
use crate::meetings::{reads, writes};
use pram_meaning::Key;
use pram_meaning::part::Part;
use pram_meaning::team::Member;
use pram_values::{Kind, Place};
use std::alloc::{AllocError, Global};

// Whether a processor is among those that met at a cell.
fn meets(kind: Kind, at: usize, cell: u32, x: &Part) -> bool
    ensures { result ≡ spec.meets kind at cell (part_is x.now) }
{
    match kind {
        Kind::ReadConflict => reads(at, cell, &x.trail),
        Kind::WriteConflict
        | Kind::Overflow
        | Kind::DivideByZero
        | Kind::OutOfRange
        | Kind::TooWide => writes(cell, x),
    }
}

// Whether a fault is of a processor.
fn concerns(key: Key, x: &Part) -> bool
    ensures { result ≡ spec.concerns key (part_is x.now) }
{
    match key.place {
        Place::Cell(cell) => meets(key.kind, key.at, cell, x),
        Place::Processor(index) => index == x.processor,
        Place::All => false,
    }
}

// What the locals of the member of a number hold.
fn values_of(alloc: Global, team: &[Member], member: usize) -> Result<Vec<i64>, AllocError>
    ensures { IfOk result (λ values. values.items ≡ (member_of (map member_is team.now) member).locals) }
{
    match team.get(member) {
        Some(member) => Vec::from_slice(alloc, &member.locals),
        None => Ok(Vec::new(alloc)),
    }
}

// The locals of a processor that the fault is of, put behind the others.
fn add_locals(
    alloc: Global,
    all: &mut Vec<OwnLocals>,
    team: &[Member],
    key: Key,
    x: &Part,
) -> Result<(), AllocError>
    ensures { OnOk result (map own_is all.new.items ≡ map own_is all.old.items
        ++ spec.locals_if key (map member_is team.now) (part_is x.now)) }
{
    if concerns(key, x) {
        let values = values_of(alloc, team, x.member as usize)?;
        all.push(OwnLocals {
            processor: x.processor,
            values,
        })?;
    }
    Ok(())
}

// What the locals of the processors hold that a fault is of.
fn locals_in(
    alloc: Global,
    team: &[Member],
    key: Key,
    parts: &[Part],
) -> Result<Vec<OwnLocals>, AllocError>
    ensures { IfOk result (λ all. map own_is all.items ≡ spec.locals_at key (map part_is parts.now) (map member_is team.now)) }
{
    let mut all = Vec::new(alloc);
    for x in parts {
        add_locals(alloc, &mut all, team, key, x)?;
    }
    Ok(all)
}

/// What the locals of the processors hold that a fault is of, in the order of the set.
pub fn locals_at(
    alloc: Global,
    team: &Vec<Member>,
    key: Key,
    parts: &[Part],
) -> Result<Vec<OwnLocals>, AllocError>
    ensures { IfOk result (λ all. map own_is all.items ≡ spec.locals_at key (map part_is parts.now) (map member_is team.now.items)) }
{
    locals_in(alloc, team, key, parts)
}
