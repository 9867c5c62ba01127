//! What is told of one run alone.

ghost use Rattle.std.specs.Prelude.{◌≡◌, IfOk, IfSome};
ghost use Rattle.write_rules.specs.Verdict.{verdict_of};
ghost use Rattle.all_inputs.specs.Overall.{AreJust, IsJust, IsToldOf};

use crate::hulls::hulls;
use all_inputs::{Ending, Overall, Reason, Told};
use intervals::Interval;
use pram_check::Program;
use std::alloc::{AllocError, Global};
use write_rules::{Fault, Outcome};

// For each value the interval of it alone.
fn points(alloc: Global, values: &[i64]) -> Result<Vec<Interval>, AllocError>
    ensures { IfOk result (λ cells. AreJust cells.items values.now) }
{
    let mut cells = Vec::with_capacity(alloc, values.len())?;
    for k in 0..values.len() {
        cells.push(Interval::point(values[k]))?;
    }
    Ok(cells)
}

// The reason that was found for a fault, if there is one.
fn reason_of(why: Option<&Told>, fault: Fault) -> Reason {
    let Some(told) = why else {
        return Reason::Single;
    };
    told.reason(fault.line, fault.kind)
        .unwrap_or(Reason::Single)
}

/// What is told of one run: its outcome, and of one that ends that it had so many statements. Of a fault that reason is told that was found
/// for it in what was known before.
pub fn overall_of(
    alloc: Global,
    program: &Program,
    outcome: Outcome,
    time: u32,
    why: Option<&Told>,
) -> Result<Overall, AllocError>
    // The outcome itself is told, and nothing beside it.
    ensures just { IfOk result (λ overall. IsJust overall (verdict_of outcome)) }
    // It lies in what is told, with each declaration's interval.
    ensures told { IfOk result (λ overall. IsToldOf program.now.layout overall (verdict_of outcome)) }
    // An end has just so many statements.
    ensures time { IfOk result (λ overall. IfSome overall.end (λ e. (e.least ≡ time) × (e.most ≡ time))) }
{
    match outcome {
        Outcome::Ended { memory, .. } => {
            let cells = points(alloc, memory.as_slice())?;
            let declared = hulls(alloc, program.layout(), &cells)?;
            let end = Ending {
                least: time,
                most: time,
                cells,
                declared,
            };
            Ok(Overall {
                told: Told::nothing(alloc),
                end: Some(end),
            })
        }
        Outcome::Faulted { fault, .. } => {
            let reason = reason_of(why, fault);
            Ok(Overall {
                told: Told::one_fault(alloc, fault.line, fault.kind, reason)?,
                end: None,
            })
        }
        Outcome::GoesOn { .. } => Ok(Overall {
            told: Told::going_on(alloc),
            end: None,
        }),
    }
}
