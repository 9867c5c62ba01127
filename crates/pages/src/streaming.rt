//! The page of a run, made as the run goes.

ghost use Rattle.std.specs.Prelude.{◌≡◌, ◌↔◌, ◌<◌, ◌≤◌, IfOk, OnOk, length, ℕ};
ghost use Rattle.pram_model.specs.Layout.{total_size};
ghost use Rattle.write_rules.specs.Verdict.{verdict_of};
ghost use Rattle.pram_meaning.specs.Outcome.{IsOutcome};
ghost use Rattle.journal.specs.InTime.{EndsBy};
ghost use Rattle.journal.specs.RunEntries.{run_entries};
ghost use Rattle.pages.specs.Paged.{IsPaged};
ghost use Rattle.pages.specs.Streamed.{HasStreamedPage, IsPageOfRun};

use crate::asked::Asked;
use crate::behind::state_if;
use crate::gathering::gather;
use crate::lines::{Kept, KeptLines};
use crate::page::write_page;
use crate::run_facts::keep_facts;
use journal::Ending;
use observing::Watch;
use pram_check::Program;
use std::alloc::{AllocError, Global};
use step_text::StreamFailure;
use text_out::Out;

// Which of a run's facts stand in its page, and the state behind those that are left out.
#[derive(Drop)]
pub(crate) struct Page {
    lines: KeptLines,
    kept: Kept,
    state: String,
}

// When the run ends whose lines are gathered: what is left of its time is for the lines of the last statements.
fn gathers_until(until: Option<u64>, now: u64) -> Option<u64>
    ensures { (bound behind : ℕ) → EndsBy result bound behind → EndsBy until bound behind }
{
    match until {
        Some(until) => Some(now.saturating_add(until.saturating_sub(now) / 10 * 9)),
        None => None,
    }
}

// What stands in the page of a run on an input that fits, and what the run came to.
fn make_page<V: Watch>(
    alloc: Global,
    file: &[u8],
    text: &[u8],
    program: &Program,
    input: &[i64],
    bound: u32,
    until: Option<u64>,
    first: usize,
    last: usize,
    watch: &mut V,
) -> Result<(Ending, Page), AllocError>
    ensures outcome { IfOk result (λ r. IsOutcome program.now input.now r.0.bound (verdict_of r.0.outcome)) }
    ensures ends { IfOk result (λ r. EndsBy until bound r.0.bound) }
    ensures page { IfOk result (λ r. IsPaged file.now text.now program.now input.now r.0.outcome
        (run_entries program.now input.now r.0.bound) first last r.1) }
{
    let asked = Asked {
        layout: program.layout(),
        tree: program.tree(),
        source: text,
        first,
        last,
    };
    let until = gathers_until(until, watch.elapsed());
    let (ending, gathered, recent) = gather(alloc, asked, program, input, bound, until, watch)?;
    let told = last.min(gathered.count);
    let outcome = &ending.outcome;
    let lines = keep_facts(alloc, file, text, program, input, asked, outcome, gathered)?;
    let kept = lines.kept();
    let state = state_if(
        alloc,
        program,
        input,
        ending.bound,
        lines.gap_end(kept, told),
        recent,
        watch,
    )?;
    Ok((ending, Page { lines, kept, state }))
}

/// Runs a program on an input, for at most `bound` statements, as long as there is time, and writes the page of the statements whose
/// numbers, counted from 1, go from `first` to `last`; `file` is what the program's file is called, and `text` the text that was read as the program. The page is
/// written when the run is over. Of entries and of lines of facts those are kept that could stand in the page, and no others are made into
/// lines: beside the run it takes the memory of one statement and some tens of MiB. The watch is told how far the run is.
///
/// E11 where there are more values than cells, and then nothing is written; E17 where the writer failed; E16 only where memory was refused,
/// and then nothing is written either.
pub fn stream_page<W: Out, V: Watch>(
    alloc: Global,
    file: &[u8],
    text: &[u8],
    program: &Program,
    input: &[i64],
    bound: u32,
    until: Option<u64>,
    first: usize,
    last: usize,
    watch: &mut V,
    out: &mut W,
) -> Result<Ending, StreamFailure>
    // The outcome is that of the program on the input within the bound at which the run ends.
    ensures outcome { IfOk result (λ r. IsOutcome program.now input.now r.bound (verdict_of r.outcome)) }
    // That is the bound that is asked for, and with a time no more.
    ensures ends { IfOk result (λ r. EndsBy until bound r.bound) }
    // An input that is run has no more values than the program has cells.
    ensures fits { OnOk result (length input.now ≤ total_size program.now.layout) }
    // The input is refused as too long exactly where it has more values than the program has cells.
    ensures too_long { (result ≡ Err StreamFailure.InputTooLong) ↔ (total_size program.now.layout < length input.now) }
    // Exactly a page of just this run's facts is written, with the state behind what is left out; a beginning where the
    // writer failed, nothing where memory was refused.
    ensures written { HasStreamedPage (λ k. IsPageOfRun file.now text.now program.now input.now k first last) until bound
        (W.Out.state out.old) (W.Out.state out.new) result }
{
    if input.len() > program.layout().cells() as usize {
        return Err(StreamFailure::InputTooLong);
    }
    let Ok((ending, page)) = make_page(
        alloc, file, text, program, input, bound, until, first, last, watch,
    ) else {
        return Err(StreamFailure::OutOfMemory);
    };
    match write_page(out, &page.lines, page.kept, page.state.as_bytes()) {
        Ok(()) => Ok(ending),
        Err(_) => Err(StreamFailure::WriteFailed),
    }
}
