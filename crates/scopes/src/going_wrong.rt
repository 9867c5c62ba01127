//! Whether it goes wrong in a certain way on an input.

ghost use Rattle.std.specs.Prelude.{◌≡◌, ◌≤◌, IfOk, length};
ghost use Rattle.std.specs.Option.{option_map};
ghost use Rattle.pram_model.specs.Layout.{total_size};
ghost use Rattle.write_rules.specs.Verdict.{verdict_of};
ghost use Rattle.scopes.specs.Runs.{fault_of, verdict_on};
ghost use Rattle.scopes.specs.Runs as runs;
ghost use Rattle.scopes.specs.Wrong as spec;

use crate::affirming::input_counts;
use crate::belonging::is_input;
use crate::failing::is_failing;
use crate::kinds::is_alike;
use crate::{Scope, Specification, Wrong};
use pram_check::Program;
use pram_meaning::{MeaningRefusal, reference_run};
use std::alloc::Global;
use write_rules::{Fault, Outcome};

// The fault that a run has.
fn fault_of(outcome: &Outcome) -> Option<Fault>
    ensures { result ≡ runs.fault_of (verdict_of outcome.now) }
{
    match outcome {
        Outcome::Faulted { fault, .. } => Some(*fault),
        Outcome::Ended { .. } | Outcome::GoesOn { .. } => None,
    }
}

// Whether a run goes on at its bound.
fn is_going_on(outcome: &Outcome) -> bool
    ensures { result ≡ runs.is_going_on (verdict_of outcome.now) }
{
    match outcome {
        Outcome::GoesOn { .. } => true,
        Outcome::Ended { .. } | Outcome::Faulted { .. } => false,
    }
}

// Whether there is a fault of that kind at that line.
fn is_like(fault: Fault, met: Option<Fault>) -> bool
    ensures { result ≡ spec.is_like fault met }
{
    match met {
        None => false,
        Some(other) => is_alike(fault, other),
    }
}

// Whether a run on an input is wrong in this way.
fn is_wrong(
    alloc: Global,
    program: &Program,
    postcondition: &Option<Program>,
    input: &[i64],
    outcome: &Outcome,
    bound: u32,
    wrong: Wrong,
) -> Result<bool, MeaningRefusal>
    requires fits { length input.now ≤ total_size program.now.layout }
    ensures { IfOk result (λ yes. yes ≡ spec.is_wrong wrong postcondition.now program.now bound input.now (verdict_of outcome.now)) }
{
    match wrong {
        Wrong::Faults(fault) => Ok(is_like(fault, fault_of(outcome))),
        Wrong::GoesOn => Ok(is_going_on(outcome)),
        Wrong::Fails => is_failing(alloc, program, postcondition, input, outcome, bound),
    }
}

// Whether the run on an input is wrong in this way.
fn comes_to(
    alloc: Global,
    program: &Program,
    postcondition: &Option<Program>,
    input: &[i64],
    bound: u32,
    wrong: Wrong,
) -> Result<bool, MeaningRefusal>
    ensures { IfOk result (λ yes. yes
        ≡ spec.is_wrong wrong postcondition.now program.now bound input.now (verdict_on program.now bound input.now)) }
{
    let outcome = reference_run(alloc, program, input, bound)?;
    is_wrong(alloc, program, postcondition, input, &outcome, bound, wrong)
}

/// Whether a list of values is an input of the scope that counts, on which the run is wrong in this way. E11 where there are more values
/// than cells, or than the precondition has; E16 only where memory was refused.
pub(crate) fn goes_wrong(
    alloc: Global,
    program: &Program,
    specification: &Specification,
    scope: Scope,
    bound: u32,
    wrong: Wrong,
    input: &[i64],
) -> Result<bool, MeaningRefusal>
    ensures { IfOk result (λ yes. yes ≡ spec.goes_wrong scope specification.now program.now bound wrong input.now) }
{
    if !is_input(scope, input) {
        return Ok(false);
    }
    if !input_counts(alloc, &specification.precondition, input, bound)? {
        return Ok(false);
    }
    comes_to(
        alloc,
        program,
        &specification.postcondition,
        input,
        bound,
        wrong,
    )
}

/// The fault that the run on an input has. E11 where there are more values than cells; E16 only where memory was refused.
pub(crate) fn fault_on(
    alloc: Global,
    program: &Program,
    input: &[i64],
    bound: u32,
) -> Result<Option<Fault>, MeaningRefusal>
    ensures { IfOk result (λ met. met ≡ runs.fault_of (verdict_on program.now bound input.now)) }
{
    let outcome = reference_run(alloc, program, input, bound)?;
    Ok(fault_of(&outcome))
}
