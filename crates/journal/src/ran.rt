//! What is told of a statement that ran.

ghost use Rattle.std.specs.Prelude.{◌≡◌, [], IfOk, map};
ghost use Rattle.pram_meaning.specs.Judging.{part_is};
ghost use Rattle.pram_meaning.specs.Listening.{action_is, done_by, done_on, step_action_is};
ghost use Rattle.pram_meaning.specs.Runs.{effect_is, state_of};
ghost use Rattle.pram_meaning.specs.Sets.{state_in};
ghost use Rattle.journal.specs.Entries.{entry_is};
ghost use Rattle.journal.specs.Acts as acts;
ghost use Rattle.journal.specs.RunEntries.{ran};
ghost use Rattle.journal.specs.Locals as locals;

use crate::Entry;
use crate::acts::{acts_of, alone_acts};
use crate::effects::{cells_changed, items_printed, variables_changed, written_alone};
use crate::locals::locals_changed;
use crate::set_effects::cells_changed_on;
use pram_check::Program;
use pram_meaning::action::{Action, StepAction};
use pram_meaning::attempt::Effect;
use pram_meaning::part::Part;
use pram_meaning::run::Run;
use pram_meaning::slate::Slate;
use pram_meaning::team::Member;
use pram_tokens::Location;
use std::alloc::{AllocError, Global};

/// That of the one processor outside pardo, whose attempt gives this.
pub(crate) fn ran_alone(
    alloc: Global,
    run: &Run,
    location: Location,
    action: &Action,
    trail: &[Option<u32>],
    effect: &Effect,
) -> Result<Entry, AllocError>
    ensures { let before = state_of run.now in let behind = done_by (action_is action.now) (effect_is effect.now) before in
        IfOk result (λ entry. entry_is entry ≡ ran location
        (acts.alone_acts before.cells trail.now effect.now.cell (acts.held behind.cells effect.now.cell)) [] before behind) }
{
    let written = written_alone(run, action, effect);
    let acts = alone_acts(alloc, &run.cells, trail, effect.cell, written)?;
    let cells = cells_changed(alloc, run, action, effect)?;
    let variables = variables_changed(alloc, run, action, effect)?;
    let printed = items_printed(alloc, run, action, effect)?;
    Ok(Entry::Ran {
        location,
        acts,
        cells,
        variables,
        locals: Vec::new(alloc),
        printed,
    })
}

/// That of a set with these parts. What they write is worked out on the slate.
pub(crate) fn ran_together(
    alloc: Global,
    slate: &mut Slate,
    program: &Program,
    run: &Run,
    team: &Vec<Member>,
    location: Location,
    action: &StepAction,
    parts: &[Part],
) -> Result<Entry, AllocError>
    ensures { let before = state_in run.now team.now.items in IfOk result (λ entry. entry_is entry ≡ ran location
        (map (acts.act_of before.cells) (map part_is parts.now))
        (locals.locals_changed (step_action_is action.now) (map part_is parts.now) before.team) before
        (done_on program.now (step_action_is action.now) (map part_is parts.now) before)) }
{
    let acts = acts_of(alloc, &run.cells, parts)?;
    let locals = locals_changed(alloc, team, action, parts)?;
    let cells = cells_changed_on(alloc, slate, program, run, action, parts)?;
    Ok(Entry::Ran {
        location,
        acts,
        cells,
        variables: Vec::new(alloc),
        locals,
        printed: Vec::new(alloc),
    })
}
