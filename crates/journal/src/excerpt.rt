//! The entries of a run from one number to another.

ghost use Rattle.std.specs.Prelude.{◌≡◌, ◌↔◌, ◌<◌, ◌≤◌, IfOk, OnOk, length, map};
ghost use Rattle.pram_model.specs.Layout.{total_size};
ghost use Rattle.write_rules.specs.Verdict.{verdict_of};
ghost use Rattle.pram_meaning.specs.Outcome.{IsOutcome};
ghost use Rattle.journal.specs.Entries.{entry_is};
ghost use Rattle.journal.specs.Between.{between};
ghost use Rattle.journal.specs.RunEntries.{run_entries};

use crate::Entry;
use crate::telling::tell_run;
use crate::window::Window;
use observing::Watch;
use pram_check::Program;
use pram_meaning::MeaningRefusal;
use std::alloc::Global;
use write_rules::Outcome;

/// Some of a run's entries, one behind the other, and how many the run has in all.
#[derive(Drop)]
pub struct Excerpt {
    pub entries: Vec<Entry>,
    pub whole: usize,
}

/// Runs a program on an input, for at most `bound` statements, as [`tell_run`](crate::tell_run) does, and keeps the entries alone whose
/// numbers, counted from 1, go from `first` to `last`: beside the run it takes the memory of these, and of one statement. The watch is told
/// how far the run is. E11 where there are more values than cells; E16 only where memory was refused.
pub fn steps_between<V: Watch>(
    alloc: Global,
    program: &Program,
    input: &[i64],
    bound: u32,
    first: usize,
    last: usize,
    watch: &mut V,
) -> Result<(Outcome, Excerpt), MeaningRefusal>
    // The outcome is that of the program on the input within the bound.
    ensures outcome { IfOk result (λ r. IsOutcome program.now input.now bound (verdict_of r.0)) }
    // An input that is run has no more values than the program has cells.
    ensures fits { OnOk result (length input.now ≤ total_size program.now.layout) }
    // The input is refused as too long exactly where it has more values than the program has cells.
    ensures too_long { (result ≡ Err MeaningRefusal.InputTooLong) ↔ (total_size program.now.layout < length input.now) }
    // Just the entries whose numbers go from the one to the other are kept, in order.
    ensures entries { IfOk result (λ r. map entry_is r.1.entries.items ≡ between first last (run_entries program.now input.now bound)) }
    // All entries of the run are counted.
    ensures whole { IfOk result (λ r. r.1.whole ≡ length (run_entries program.now input.now bound)) }
{
    let window = Window {
        first,
        last,
        count: 0,
        entries: Vec::new(alloc),
    };
    let (window, done) = tell_run(alloc, program, input, bound, window, watch);
    match done {
        Ok(outcome) => {
            let (entries, whole) = (window.entries, window.count);
            Ok((outcome, Excerpt { entries, whole }))
        }
        Err(refusal) => Err(refusal),
    }
}
