//! A run that is told to somebody.

ghost use Rattle.std.specs.Prelude.{◌≡◌, ◌↔◌, ◌<◌, ◌≤◌, [], IfOk, OnErr, OnOk, length};
ghost use Rattle.pram_model.specs.Layout.{total_size};
ghost use Rattle.write_rules.specs.Verdict.{verdict_of};
ghost use Rattle.pram_meaning.specs.Outcome.{IsOutcome};
ghost use Rattle.journal.specs.RunEntries.{run_entries};
ghost use Rattle.journal.specs.Telling.{HasToldPart};

use crate::journal::Journal;
use crate::teller::Teller;
use observing::{Watch, observe_watched};
use pram_check::Program;
use pram_meaning::slate::Slate;
use pram_meaning::{MeaningRefusal, check_input};
use std::alloc::Global;
use write_rules::Outcome;

/// Runs a program on an input, for at most `bound` statements, as [`pram_meaning::reference_run`] does, and tells each statement to the
/// teller as the run goes; entry k, counted from 1, is the k-th statement that ran. The watch is told how far the run is, and the teller
/// comes back with what it came to. E11 where there are more values than cells, and then nothing is told; E16 where memory was refused or
/// the teller broke off.
pub fn tell_run<T: Teller + Drop, V: Watch>(
    alloc: Global,
    program: &Program,
    input: &[i64],
    bound: u32,
    teller: T,
    watch: &mut V,
) -> (T, Result<Outcome, MeaningRefusal>)
    // The outcome is that of the program on the input within the bound.
    ensures outcome { IfOk result.1 (λ o. IsOutcome program.now input.now bound (verdict_of o)) }
    // An input that is run has no more values than the program has cells.
    ensures fits { OnOk result.1 (length input.now ≤ total_size program.now.layout) }
    // The input is refused as too long exactly where it has more values than the program has cells.
    ensures too_long { (result.1 ≡ Err MeaningRefusal.InputTooLong) ↔ (total_size program.now.layout < length input.now) }
    // Where there is an outcome, all entries of the run were told in order.
    ensures told { OnOk result.1 (T.tells teller (run_entries program.now input.now bound) result.0) }
    // Where memory was refused or the entries were taken no more, a beginning of them was told.
    ensures part { result.1 ≡ Err MeaningRefusal.OutOfMemory →
        HasToldPart T.tells T.breaks_off teller (run_entries program.now input.now bound) result.0 }
    // Of an input that is too long no entry was told.
    ensures untold { result.1 ≡ Err MeaningRefusal.InputTooLong → T.tells teller [] result.0 }
{
    if let Err(refusal) = check_input(program, input) {
        return (teller, Err(refusal));
    }
    let Ok(slate) = Slate::new(alloc, program.layout().cells()) else {
        return (teller, Err(MeaningRefusal::OutOfMemory));
    };
    let journal = Journal {
        alloc,
        program,
        slate,
        teller,
    };
    let (journal, done) = observe_watched(alloc, program, input, bound, journal, watch);
    (journal.teller, done)
}
