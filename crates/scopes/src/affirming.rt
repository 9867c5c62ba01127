//! Programs that say yes or no of an input.

ghost use Rattle.std.specs.Prelude.{◌≡◌, ◌↔◌, ◌<◌, IfOk, IsSomeAnd, length};
ghost use Rattle.pram_model.specs.Layout.{total_size};
ghost use Rattle.write_rules.specs.Verdict.{verdict_of};
ghost use Rattle.scopes.specs.Specified as spec;

use pram_check::Program;
use pram_meaning::{MeaningRefusal, reference_run};
use pram_values::is_true;
use std::alloc::Global;
use write_rules::Outcome;

// Whether the last of some numbers is there and isn't 0.
fn ends_nonzero(output: &[i64]) -> bool
    ensures { result ≡ spec.ends_nonzero output.now }
{
    match output.last() {
        None => false,
        Some(value) => is_true(*value),
    }
}

// Whether a run ended, and the last number that it printed isn't 0.
fn is_yes(outcome: &Outcome) -> bool
    ensures { result ≡ spec.is_yes (verdict_of outcome.now) }
{
    match outcome {
        Outcome::Ended { output, .. } => ends_nonzero(output.as_slice()),
        Outcome::Faulted { .. } | Outcome::GoesOn { .. } => false,
    }
}

/// Whether a program affirms an input: its run on it ends within `bound` statements, and prints last a number that isn't 0. E11 where there
/// are more values than cells; E16 only where memory was refused.
pub fn affirms(
    alloc: Global,
    program: &Program,
    input: &[i64],
    bound: u32,
) -> Result<bool, MeaningRefusal>
    // The answer is yes exactly where the program's run on the input ends within the bound and prints last a number
    // that isn't 0.
    ensures affirms { IfOk result (λ yes. yes ≡ spec.affirms program.now bound input.now) }
    // The input is refused as too long exactly where it has more values than the program has cells.
    ensures too_long { (result ≡ Err MeaningRefusal.InputTooLong) ↔ (total_size program.now.layout < length input.now) }
{
    let outcome = reference_run(alloc, program, input, bound)?;
    Ok(is_yes(&outcome))
}

/// Whether an input counts: the precondition affirms it, or there is none. E11 where there are more values than the precondition has cells;
/// E16 only where memory was refused.
pub fn input_counts(
    alloc: Global,
    precondition: &Option<Program>,
    input: &[i64],
    bound: u32,
) -> Result<bool, MeaningRefusal>
    // The answer is yes exactly where the precondition affirms the input, or where there is none.
    ensures counts { IfOk result (λ yes. yes ≡ spec.counts precondition.now bound input.now) }
    // The input is refused as too long exactly where there is a precondition that has fewer cells than it has values.
    ensures too_long { (result ≡ Err MeaningRefusal.InputTooLong)
        ↔ IsSomeAnd precondition.now (λ q. total_size q.layout < length input.now) }
{
    match precondition {
        None => Ok(true),
        Some(program) => affirms(alloc, program, input, bound),
    }
}

/// How many values an input may have: as many as the program has cells, and as the precondition has.
pub fn most_values(precondition: &Option<Program>, program: &Program) -> u32
    // It is the number of the program's cells, or that of the precondition's where these are fewer.
    ensures { result ≡ spec.most_values precondition.now program.now }
{
    let cells = program.layout().cells();
    match precondition {
        None => cells,
        Some(other) => cells.min(other.layout().cells()),
    }
}
