//! The reference interpreter.

ghost use Rattle.std.specs.Prelude.{◌≡◌, ◌↔◌, ◌<◌, ◌≤◌, IfOk, length};
ghost use Rattle.pram_model.specs.Layout.{total_size};
ghost use Rattle.write_rules.specs.Verdict.{verdict_of};
ghost use Rattle.pram_meaning.specs.Outcome.{IsOutcome};

use crate::observation::{MeaningRefusal, observe};
use crate::silent::Silent;
use pram_check::Program;
use std::alloc::Global;
use write_rules::Outcome;

/// Runs a program on an input, for at most `bound` statements. The first cells get the values of
/// the input. E11 where there are more values than cells; E16 only where memory was refused.
pub fn reference_run(
    alloc: Global,
    program: &Program,
    input: &[i64],
    bound: u32,
) -> Result<Outcome, MeaningRefusal>
    // The answer is the program's outcome on the input, within the bound, by the definition.
    ensures outcome { IfOk result (λ o. IsOutcome program.now input.now bound (verdict_of o)) }
    ensures fits { IfOk result (λ o. length input.now ≤ total_size program.now.layout) }
    ensures too_long { (result ≡ Err MeaningRefusal.InputTooLong) ↔ (total_size program.now.layout < length input.now) }
{
    observe(alloc, program, input, bound, &mut Silent {})
}
