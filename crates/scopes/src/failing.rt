//! Whether a run that ended is right.

ghost use Rattle.std.specs.Prelude.{◌≡◌, ◌≤◌, IfOk, length, not};
ghost use Rattle.pram_model.specs.Layout.{total_size};
ghost use Rattle.write_rules.specs.Verdict.{verdict_of};
ghost use Rattle.scopes.specs.Handed.{handed_on};
ghost use Rattle.scopes.specs.Specified as spec;

use crate::affirming::affirms;
use crate::handing::hand_on;
use pram_check::Program;
use pram_meaning::MeaningRefusal;
use std::alloc::Global;
use write_rules::Outcome;

// Whether the postcondition doesn't affirm what a run on an input left.
fn is_wrong(
    alloc: Global,
    program: &Program,
    postcondition: &Program,
    input: &[i64],
    left: &[i64],
    bound: u32,
) -> Result<bool, MeaningRefusal>
    requires fits { length input.now ≤ total_size program.now.layout }
    ensures { IfOk result (λ wrong. wrong ≡
        not (spec.affirms postcondition.now bound (handed_on program.now postcondition.now input.now left.now))) }
{
    let handed = hand_on(alloc, program, postcondition, input, left)?;
    Ok(!affirms(alloc, postcondition, handed.as_slice(), bound)?)
}

/// Whether a run on an input fails: it ended, and the postcondition, where there is one, doesn't affirm what is handed on. The error is
/// that memory was refused.
pub(crate) fn is_failing(
    alloc: Global,
    program: &Program,
    postcondition: &Option<Program>,
    input: &[i64],
    outcome: &Outcome,
    bound: u32,
) -> Result<bool, MeaningRefusal>
    requires fits { length input.now ≤ total_size program.now.layout }
    ensures { IfOk result (λ fails. fails ≡ spec.is_failing postcondition.now program.now bound input.now (verdict_of outcome.now)) }
{
    let Some(postcondition) = postcondition else {
        return Ok(false);
    };
    match outcome {
        Outcome::Ended { memory, .. } => is_wrong(
            alloc,
            program,
            postcondition,
            input,
            memory.as_slice(),
            bound,
        ),
        Outcome::Faulted { .. } | Outcome::GoesOn { .. } => Ok(false),
    }
}
