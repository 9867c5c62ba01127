//! What is told of a statement that faults.

ghost use Rattle.std.specs.Prelude.{◌≡◌, IfOk, map, Some};
ghost use Rattle.pram_meaning.specs.Attempt.{Fails};
ghost use Rattle.pram_meaning.specs.Judging.{part_is};
ghost use Rattle.pram_meaning.specs.Listening.{action_is, step_action_is};
ghost use Rattle.pram_meaning.specs.Runs.{state_of};
ghost use Rattle.pram_meaning.specs.Sets.{state_in};
ghost use Rattle.journal.specs.Entries.{entry_is};
ghost use Rattle.journal.specs.RunEntries.{by_one, by_set};

use crate::Entry;
use crate::acts::{acts_before, alone_acts, front};
use crate::alone::cause_alone;
use crate::fault_locals::locals_at;
use crate::meetings::meeting;
use crate::together::cause_on;
use pram_check::Program;
use pram_meaning::Key;
use pram_meaning::action::{Action, StepAction};
use pram_meaning::part::Part;
use pram_meaning::run::Run;
use pram_meaning::team::Member;
use pram_tokens::Location;
use pram_values::{Kind, Place};
use std::alloc::{AllocError, Global};
use write_rules::Fault;

/// That of the one processor outside pardo, at the last position of the trail.
pub(crate) fn fault_alone(
    alloc: Global,
    program: &Program,
    run: &Run,
    location: Location,
    action: &Action,
    trail: &[Option<u32>],
    kind: Kind,
) -> Result<Entry, AllocError>
    ensures { IfOk result (λ entry. entry_is entry ≡ by_one program.now location (action_is action.now) (state_of run.now)
        (Fails trail.now kind) (state_of run.now)) }
{
    let acts = alone_acts(alloc, &run.cells, front(trail.len(), trail), None, None)?;
    let fault = Fault {
        kind,
        line: location.line,
        place: Place::All,
    };
    let cause = cause_alone(alloc, program, run, action);
    Ok(Entry::Faulted {
        location,
        fault,
        cause,
        acts,
        met: Vec::new(alloc),
        locals: Vec::new(alloc),
    })
}

/// That of a set, by its least fault.
pub(crate) fn fault_together(
    alloc: Global,
    program: &Program,
    run: &Run,
    team: &Vec<Member>,
    location: Location,
    action: &StepAction,
    parts: &[Part],
    key: Key,
) -> Result<Entry, AllocError>
    ensures { IfOk result (λ entry. entry_is entry ≡ by_set program.now location (step_action_is action.now)
        (state_in run.now team.now.items) (map part_is parts.now) (Some key) (state_in run.now team.now.items)) }
{
    let acts = acts_before(alloc, &run.cells, key.at, parts)?;
    let met = meeting(alloc, key, parts)?;
    let locals = locals_at(alloc, team, key, parts)?;
    let cause = cause_on(alloc, program, run, team, action, parts, key)?;
    let fault = Fault {
        kind: key.kind,
        line: location.line,
        place: key.place,
    };
    Ok(Entry::Faulted {
        location,
        fault,
        cause,
        acts,
        met,
        locals,
    })
}
