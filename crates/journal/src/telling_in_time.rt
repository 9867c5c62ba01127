//! A run that is told to somebody as long as there is time.

ghost use Rattle.std.specs.Prelude.{◌≡◌, ◌↔◌, ◌<◌, ◌≤◌, [], IfOk, OnErr, OnOk, length};
ghost use Rattle.pram_model.specs.Layout.{total_size};
ghost use Rattle.write_rules.specs.Verdict.{verdict_of};
ghost use Rattle.pram_meaning.specs.Outcome.{IsOutcome};
ghost use Rattle.journal.specs.InTime.{EndsBy, ending_of};
ghost use Rattle.journal.specs.RunEntries.{run_entries};
ghost use Rattle.journal.specs.Telling.{HasToldPart};

use crate::in_time::{Cut, InTime, SHOWN_EVERY};
use crate::journal::Journal;
use crate::teller::Teller;
use observing::Watch;
use pram_check::Program;
use pram_meaning::slate::Slate;
use pram_meaning::{MeaningRefusal, check_input, observe};
use std::alloc::Global;
use write_rules::Outcome;

/// What a run comes to, and behind how many statements it ends at the latest.
#[derive(Drop)]
pub struct Ending {
    pub outcome: Outcome,
    pub bound: u32,
}

// What it comes to, where its time was over, and where it was not.
fn ending_of(
    done: Result<Outcome, MeaningRefusal>,
    bound: u32,
    cut: Option<Cut>,
) -> Result<Ending, MeaningRefusal>
    ensures { result ≡ ending_of done bound cut }
{
    match cut {
        None => match done {
            Ok(outcome) => Ok(Ending { outcome, bound }),
            Err(refusal) => Err(refusal),
        },
        Some(cut) => Ok(Ending {
            outcome: Outcome::GoesOn { output: cut.output },
            bound: cut.statements,
        }),
    }
}

/// Runs a program on an input as [`tell_run`](crate::tell_run) does, and ends the run where the call has been going for `until`
/// milliseconds by the clock of the watch, at the next statement: what was told up to there is all that is told of it. As time goes, the
/// teller is to show what it was told.
pub fn tell_in_time<T: Teller + Drop, V: Watch>(
    alloc: Global,
    program: &Program,
    input: &[i64],
    bound: u32,
    until: Option<u64>,
    teller: T,
    watch: &mut V,
) -> (T, Result<Ending, MeaningRefusal>)
    // The outcome is that of the program on the input within the bound at which the run ends.
    ensures outcome { IfOk result.1 (λ r. IsOutcome program.now input.now r.bound (verdict_of r.outcome)) }
    // That is the bound that is asked for, and with a time no more.
    ensures ends { IfOk result.1 (λ r. EndsBy until bound r.bound) }
    // An input that is run has no more values than the program has cells.
    ensures fits { OnOk result.1 (length input.now ≤ total_size program.now.layout) }
    // The input is refused as too long exactly where it has more values than the program has cells.
    ensures too_long { (result.1 ≡ Err MeaningRefusal.InputTooLong) ↔ (total_size program.now.layout < length input.now) }
    // Where there is an outcome, all entries of the run up to that bound were told in order, and no other.
    ensures told { IfOk result.1 (λ r. T.tells teller (run_entries program.now input.now r.bound) result.0) }
    // Where memory was refused or the entries were taken no more, a beginning of them was told.
    ensures part { result.1 ≡ Err MeaningRefusal.OutOfMemory →
        HasToldPart T.tells T.breaks_off teller (run_entries program.now input.now bound) result.0 }
    // Of an input that is too long no entry was told.
    ensures untold { result.1 ≡ Err MeaningRefusal.InputTooLong → T.tells teller [] result.0 }
{
    if let Err(refusal) = check_input(program, input) {
        return (teller, Err(refusal));
    }
    let Ok(slate) = Slate::new(alloc, program.layout().cells()) else {
        return (teller, Err(MeaningRefusal::OutOfMemory));
    };
    let journal = Journal {
        alloc,
        program,
        slate,
        teller,
    };
    let next = watch.elapsed().saturating_add(SHOWN_EVERY);
    let mut told = InTime {
        journal,
        watch,
        until,
        next,
        acted: 0,
        cut: None,
    };
    let done = observe(alloc, program, input, bound, &mut told);
    let InTime { journal, cut, .. } = told;
    (journal.teller, ending_of(done, bound, cut))
}
