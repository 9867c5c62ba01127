//! The reads of statements inside pardo.

ghost use Rattle.std.specs.Prelude.{◌≡◌, ◌++◌, false, OnOk};
ghost use Rattle.pictures.specs.Flows.Subscripts as spec;

use crate::flows::subscripts::{add_asides, add_step_assign};
use pram_check::{Expression, Step, StepTarget};
use pram_trees::Location;
use std::alloc::AllocError;

/// Adds the reads of an expression of a statement that begins here, if that is the one at the offset.
#[tactic(auto, using(crate::proofs::OfFlows::Chains::no_reads))]
pub(crate) fn add_here(
    all: &mut Vec<bool>,
    offset: u32,
    location: Location,
    e: &Expression,
) -> Result<(), AllocError>
    ensures { OnOk result (all.new.items ≡ all.old.items ++ spec.here_or_none location offset (spec.asides false e.now)) }
{
    if location.offset == offset {
        add_asides(all, false, e)
    } else {
        Ok(())
    }
}

// The same of an assignment.
#[tactic(auto, using(crate::proofs::OfFlows::Chains::no_reads))]
fn add_assign_here(
    all: &mut Vec<bool>,
    offset: u32,
    location: Location,
    target: &StepTarget,
    value: &Expression,
) -> Result<(), AllocError>
    ensures { OnOk result (all.new.items
        ≡ all.old.items ++ spec.here_or_none location offset (spec.step_assign_asides target.now value.now)) }
{
    if location.offset == offset {
        add_step_assign(all, target, value)
    } else {
        Ok(())
    }
}

/// Adds the reads of the statement at an offset, if it is this one or stands in it.
#[cycle(inside)]
#[tactic(auto, using(crate::proofs::OfFlows::ReadRows::step_if, crate::proofs::OfFlows::ReadRows::step_while))]
fn add_step(all: &mut Vec<bool>, offset: u32, s: &Step) -> Result<(), AllocError>
    ensures { OnOk result (all.new.items ≡ all.old.items ++ spec.step_at offset s.now) }
{
    match s {
        Step::Assign {
            location,
            target,
            value,
        } => add_assign_here(all, offset, *location, target, value),
        Step::If {
            location,
            test,
            then_part,
            else_part,
        } => {
            add_here(all, offset, *location, test)?;
            add_steps(all, offset, then_part)?;
            add_steps(all, offset, else_part)
        }
        Step::While {
            location,
            test,
            body,
        } => {
            add_here(all, offset, *location, test)?;
            add_steps(all, offset, body)
        }
    }
}

/// The same of statements in order.
#[cycle(inside)]
#[tactic(auto, using(crate::proofs::OfFlows::ReadRows::steps_more, crate::proofs::OfFlows::ReadRows::steps_end))]
pub(crate) fn add_steps(
    all: &mut Vec<bool>,
    offset: u32,
    body: &Vec<Step>,
) -> Result<(), AllocError>
    ensures { OnOk result (all.new.items ≡ all.old.items ++ spec.steps_at offset body.now.items) }
{
    for s in body {
        add_step(all, offset, s)?;
    }
    Ok(())
}
