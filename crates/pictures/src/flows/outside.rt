//! The reads of statements outside pardo.

ghost use Rattle.std.specs.Prelude.{◌≡◌, ◌++◌, IfOk, OnOk};
ghost use Rattle.pictures.specs.Flows.Subscripts as spec;

use crate::flows::inside::{add_here, add_steps};
use crate::flows::subscripts::{add_assign, add_bounds};
use pram_check::{Expression, Program, Statement, Target};
use pram_trees::Location;
use std::alloc::{AllocError, Global};

// Adds the reads of an assignment that begins here, if that is the one at the offset.
#[tactic(auto, using(crate::proofs::OfFlows::Chains::no_reads))]
fn add_assign_here(
    all: &mut Vec<bool>,
    offset: u32,
    location: Location,
    target: &Target,
    value: &Expression,
) -> Result<(), AllocError>
    ensures { OnOk result (all.new.items
        ≡ all.old.items ++ spec.here_or_none location offset (spec.assign_asides target.now value.now)) }
{
    if location.offset == offset {
        add_assign(all, target, value)
    } else {
        Ok(())
    }
}

// The same of two bounds.
#[tactic(auto, using(crate::proofs::OfFlows::Chains::no_reads))]
fn add_bounds_here(
    all: &mut Vec<bool>,
    offset: u32,
    location: Location,
    low: &Expression,
    high: &Expression,
) -> Result<(), AllocError>
    ensures { OnOk result (all.new.items ≡ all.old.items ++ spec.here_or_none location offset (spec.bounds_asides low.now high.now)) }
{
    if location.offset == offset {
        add_bounds(all, low, high)
    } else {
        Ok(())
    }
}

/// Adds the reads of the statement at an offset, if it is this one or stands in it.
#[cycle(outside)]
#[tactic(auto, using(crate::proofs::OfFlows::ReadRows::statement_reads))]
fn add_statement(all: &mut Vec<bool>, offset: u32, s: &Statement) -> Result<(), AllocError>
    ensures { OnOk result (all.new.items ≡ all.old.items ++ spec.statement_at offset s.now) }
{
    match s {
        Statement::Assign {
            location,
            target,
            value,
        } => add_assign_here(all, offset, *location, target, value),
        Statement::Print { location, value } => add_here(all, offset, *location, value),
        Statement::While {
            location,
            test,
            body,
        } => {
            add_here(all, offset, *location, test)?;
            add_statements(all, offset, body)
        }
        Statement::If {
            location,
            test,
            then_part,
            else_part,
        } => {
            add_here(all, offset, *location, test)?;
            add_statements(all, offset, then_part)?;
            add_statements(all, offset, else_part)
        }
        Statement::For {
            location,
            variable: _,
            low,
            high,
            body,
        } => {
            add_bounds_here(all, offset, *location, low, high)?;
            add_statements(all, offset, body)
        }
        Statement::Pardo {
            location,
            low,
            high,
            locals: _,
            body,
        } => {
            add_bounds_here(all, offset, *location, low, high)?;
            add_steps(all, offset, body)
        }
    }
}

// The same of statements in order.
#[cycle(outside)]
#[tactic(auto, using(crate::proofs::OfFlows::ReadRows::statements_more, crate::proofs::OfFlows::ReadRows::statements_end))]
fn add_statements(all: &mut Vec<bool>, offset: u32, body: &Vec<Statement>) -> Result<(), AllocError>
    ensures { OnOk result (all.new.items ≡ all.old.items ++ spec.statements_at offset body.now.items) }
{
    for s in body {
        add_statement(all, offset, s)?;
    }
    Ok(())
}

// Those of a program's statements.
#[tactic(auto, using(crate::proofs::OfFlows::ReadRows::statements_more, crate::proofs::OfFlows::ReadRows::statements_end))]
fn add_body(all: &mut Vec<bool>, offset: u32, body: &[Statement]) -> Result<(), AllocError>
    ensures { OnOk result (all.new.items ≡ all.old.items ++ spec.statements_at offset body.now) }
{
    for s in body {
        add_statement(all, offset, s)?;
    }
    Ok(())
}

/// Which shared reads of the statement at an offset of the text stand in a subscript, read by read, in the order in which a processor makes
/// them: one for each read in the statement, and none where no statement begins there.
pub(crate) fn subscript_reads(
    alloc: Global,
    program: &Program,
    offset: u32,
) -> Result<Vec<bool>, AllocError>
    // It tells which of the shared reads of the statement at this offset stand in a subscript, read by read in order of
    // evaluation.
    ensures { IfOk result (λ all. all.items ≡ spec.statements_at offset program.now.body) }
{
    let mut all = Vec::new(alloc);
    add_body(&mut all, offset, program.body())?;
    Ok(all)
}
