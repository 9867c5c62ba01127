//! The outcome of a run, with its time and its work alone.

ghost use Rattle.std.specs.Prelude.{◌≡◌, ◌↔◌, ◌<◌, ◌≤◌, IfOk, length};
ghost use Rattle.pram_model.specs.Layout.{total_size};
ghost use Rattle.write_rules.specs.Verdict.{verdict_of};
ghost use Rattle.pram_meaning.specs.Outcome.{IsOutcome};
ghost use Rattle.costs.specs.Cost as spec;
ghost use Rattle.costs.specs.Steps.{run_steps};

use crate::taken::TimeAndWork;
use pram_check::Program;
use pram_meaning::{MeaningRefusal, observe};
use std::alloc::Global;
use write_rules::Outcome;

/// Runs a program on an input, for at most `bound` statements, as [`pram_meaning::reference_run`] does, and says beside the outcome its
/// time and its work, and nothing else, so that it costs little more. A statement that faults counts. E11 where there are more values than
/// cells; E16 only where memory was refused.
pub fn time_and_work(
    alloc: Global,
    program: &Program,
    input: &[i64],
    bound: u32,
) -> Result<(Outcome, TimeAndWork), MeaningRefusal>
    ensures outcome { IfOk result (λ r. IsOutcome program.now input.now bound (verdict_of r.0)) }
    ensures fits { IfOk result (λ r. length input.now ≤ total_size program.now.layout) }
    ensures too_long { (result ≡ Err MeaningRefusal.InputTooLong) ↔ (total_size program.now.layout < length input.now) }
    ensures time { IfOk result (λ r. r.1.time ≡ spec.time (run_steps program.now input.now bound)) }
    ensures work { IfOk result (λ r. r.1.work ≡ spec.work (run_steps program.now input.now bound)) }
{
    let mut counted = TimeAndWork::new();
    let outcome = observe(alloc, program, input, bound, &mut counted)?;
    Ok((outcome, counted))
}
