//! A run that is observed, while a watch is told how far it is.

ghost use Rattle.std.specs.Prelude.{◌≡◌, ◌↔◌, ◌<◌, ◌≤◌, IfOk, OnOk, length};
ghost use Rattle.pram_model.specs.Layout.{total_size};
ghost use Rattle.write_rules.specs.Verdict.{verdict_of};
ghost use Rattle.pram_meaning.specs.Listening.{HasHeardPart};
ghost use Rattle.pram_meaning.specs.Moments.{run_moments};
ghost use Rattle.pram_meaning.specs.Outcome.{IsOutcome};

use crate::Watch;
use crate::watched::Watched;
use pram_check::Program;
use pram_meaning::listener::Listener;
use pram_meaning::{MeaningRefusal, observe};
use std::alloc::Global;
use write_rules::Outcome;

/// Runs a program on an input, for at most `bound` statements, for a listener, as [`pram_meaning::observe`] does, and tells the watch how
/// many have begun. The listener comes back. E11 where there are more values than cells, and then nothing is told; E16 only where memory
/// was refused, to the run or to the listener, or where the listener gave up.
pub fn observe_watched<L: Listener + Drop, V: Watch>(
    alloc: Global,
    program: &Program,
    input: &[i64],
    bound: u32,
    listener: L,
    watch: &mut V,
) -> (L, Result<Outcome, MeaningRefusal>)
    // The run comes to the program's outcome on the input within the bound.
    ensures outcome { IfOk result.1 (λ o. IsOutcome program.now input.now bound (verdict_of o)) }
    // An input that is run has no more values than the program has cells.
    ensures fits { OnOk result.1 (length input.now ≤ total_size program.now.layout) }
    // The input is refused as too long exactly where it has more values than the program has cells.
    ensures too_long { (result.1 ≡ Err MeaningRefusal.InputTooLong) ↔ (total_size program.now.layout < length input.now) }
    // Where there is an outcome, the listener has heard all moments of the run, in order.
    ensures heard { OnOk result.1 (L.hears listener (run_moments program.now input.now bound) result.0) }
    // Where memory was refused or the listener gave up, it has heard a beginning of them.
    ensures part { result.1 ≡ Err MeaningRefusal.OutOfMemory →
        HasHeardPart L.hears L.gives_up listener (run_moments program.now input.now bound) result.0 }
    // Of an input that is too long it has heard nothing.
    ensures unheard { result.1 ≡ Err MeaningRefusal.InputTooLong → result.0 ≡ listener }
{
    let mut watched = Watched { listener, watch };
    let done = observe(alloc, program, input, bound, &mut watched);
    (watched.listener, done)
}
