//! Why a statement of a set faults.

ghost use Rattle.std.specs.Prelude.{◌≡◌, IfOk, map};
ghost use Rattle.pram_meaning.specs.Judging.{part_is};
ghost use Rattle.pram_meaning.specs.Listening.{step_action_is};
ghost use Rattle.pram_meaning.specs.Sets.{state_in};
ghost use Rattle.pram_meaning.specs.Store.{seen_by};
ghost use Rattle.journal.specs.Causes.{known_cause};
ghost use Rattle.journal.specs.FoundCauses as spec;

use crate::Cause;
use crate::alone::cause_in;
use crate::cells::cause_at_cell;
use crate::seeing::view_of;
use pram_check::Program;
use pram_meaning::Key;
use pram_meaning::action::StepAction;
use pram_meaning::part::Part;
use pram_meaning::run::Run;
use pram_meaning::team::Member;
use pram_values::{Kind, Place, is_same};
use std::alloc::{AllocError, Global};

// Kinds by numbers, to compare them.
fn kind_number(kind: Kind) -> u8
    ensures { result ≡ spec.kind_number kind }
{
    match kind {
        Kind::Overflow => 0,
        Kind::DivideByZero => 1,
        Kind::OutOfRange => 2,
        Kind::TooWide => 3,
        Kind::ReadConflict => 4,
        Kind::WriteConflict => 5,
    }
}

// Whether the attempt of a part fails at this position in this way.
fn has_failed(key: Key, x: &Part) -> bool
    ensures { result ≡ spec.has_failed key (part_is x.now).attempt }
{
    match x.outcome {
        Ok(_) => false,
        Err(kind) => x.trail.len() == key.at && kind_number(kind) == kind_number(key.kind),
    }
}

// Whether this is the place of the processor of this index.
fn is_at(place: Place, index: i64) -> bool
    ensures { result ≡ spec.is_at place index }
{
    match place {
        Place::Processor(other) => is_same(other, index),
        Place::Cell(_) | Place::All => false,
    }
}

// Whether the fault is that of this part.
fn is_own(key: Key, x: &Part) -> bool
    ensures { result ≡ spec.is_own key (part_is x.now) }
{
    is_at(key.place, x.processor) && has_failed(key, x)
}

// Why the member of this number fails.
fn cause_of_member(
    alloc: Global,
    program: &Program,
    run: &Run,
    team: &Vec<Member>,
    action: &StepAction,
    member: u32,
) -> Option<Cause>
    ensures { known_cause result ≡ spec.cause_in (seen_by program.now (state_in run.now team.now.items) member)
        (step_action_is action.now) }
{
    let no_locals: Vec<i64> = Vec::new(alloc);
    let (index, locals) = match team.get(member as usize) {
        Some(member) => (member.index, &member.locals),
        None => (0, &no_locals),
    };
    cause_in(&view_of(program, run, index, locals), action)
}

// Why the one fails whose fault it is.
fn own_cause(
    alloc: Global,
    program: &Program,
    run: &Run,
    team: &Vec<Member>,
    action: &StepAction,
    parts: &[Part],
    key: Key,
) -> Option<Cause>
    ensures { known_cause result ≡ spec.own_cause
        (λ v. spec.cause_in (seen_by program.now (state_in run.now team.now.items) v) (step_action_is action.now)) key
        (map part_is parts.now) }
{
    for x in parts {
        if is_own(key, x) {
            return cause_of_member(alloc, program, run, team, action, x.member);
        }
    }
    None
}

/// Why a statement of a set has this fault, by its parts and by the run as it stands before it: at a processor why its attempt fails, at a
/// cell the accesses that conflict there. None where the parts have no such fault. The error is that memory was refused.
pub(crate) fn cause_on(
    alloc: Global,
    program: &Program,
    run: &Run,
    team: &Vec<Member>,
    action: &StepAction,
    parts: &[Part],
    key: Key,
) -> Result<Option<Cause>, AllocError>
    // It is the defined cause of this fault of a set's statement in this state: why a processor's attempt fails, or the
    // accesses that conflict.
    ensures { IfOk result (λ cause. known_cause cause ≡ spec.cause_on program.now (state_in run.now team.now.items)
        (step_action_is action.now) key (map part_is parts.now)) }
{
    match key.place {
        Place::Processor(_) => Ok(own_cause(alloc, program, run, team, action, parts, key)),
        Place::Cell(cell) => {
            let cause = cause_at_cell(alloc, key.kind, cell, parts)?;
            Ok(Some(cause))
        }
        Place::All => Ok(None),
    }
}
