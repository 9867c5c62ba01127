//! What a statement of a set changes.

ghost use Rattle.std.specs.Prelude.{◌≡◌, IfOk, List, map};
ghost use Rattle.pram_meaning.specs.declared.team.Member.{Member};
ghost use Rattle.pram_meaning.specs.Judging.{part_is};
ghost use Rattle.pram_meaning.specs.Listening.{done_on, step_action_is};
ghost use Rattle.pram_meaning.specs.Sets.{state_in};
ghost use Rattle.pram_meaning.specs.Together.{overwritten};
ghost use Rattle.journal.specs.Changes.{difference};

use crate::Change;
use crate::differences::changes_between;
use pram_check::{Program, StepTarget};
use pram_meaning::action::StepAction;
use pram_meaning::part::Part;
use pram_meaning::run::Run;
use pram_meaning::slate::Slate;
use pram_meaning::together::overwrite;
use std::alloc::{AllocError, Global};

// The cells that writes change, by the cells that they leave in a copy.
fn cells_overwritten(
    alloc: Global,
    slate: &mut Slate,
    program: &Program,
    run: &Run,
    parts: &[Part],
) -> Result<Vec<Change>, AllocError>
    ensures { IfOk result (λ ds. ds.items ≡ difference run.now.cells.items
        (overwritten program.now.rule (map part_is parts.now) 0 run.now.cells.items)) }
{
    let mut cells = Vec::from_slice(alloc, &run.cells)?;
    overwrite(alloc, slate, program.rule(), &mut cells, parts)?;
    changes_between(alloc, &run.cells, &cells)
}

/// The cells that a statement changes, whoever stands in the set. They are worked out on the slate.
#[tactic(auto, using(crate::proofs::Differing::none_of_it))]
pub fn cells_changed_on(
    alloc: Global,
    slate: &mut Slate,
    program: &Program,
    run: &Run,
    action: &StepAction,
    parts: &[Part],
) -> Result<Vec<Change>, AllocError>
    ensures { IfOk result (λ ds. (ms : List Member) → ds.items ≡ difference run.now.cells.items
        (done_on program.now (step_action_is action.now) (map part_is parts.now) (state_in run.now ms)).cells) }
{
    match action {
        StepAction::Assigns { target, .. } => match target {
            StepTarget::Local(_) => Ok(Vec::new(alloc)),
            StepTarget::Cell(_) | StepTarget::Element(_, _) => {
                cells_overwritten(alloc, slate, program, run, parts)
            }
        },
        StepAction::Turns { .. } | StepAction::Chooses { .. } => Ok(Vec::new(alloc)),
    }
}
