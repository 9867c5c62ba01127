//! Programs at several sizes.

ghost use Rattle.std.specs.Prelude.{◌≡◌, ◌++◌, ◌∷◌, [], IfOk, IfErr, Ok, Err, OnOk, Some, List, ℕ};
ghost use Rattle.std.specs.List.{AllZip, list_any, slice_get};
ghost use Rattle.std.specs.Option.{IsSomeAnd};
ghost use Rattle.sized_texts.specs.Sweeps.{IsSweepOf};
ghost use Rattle.program_texts.specs.Shown.{fault_text};
ghost use Rattle.sized_texts.specs.Faults.{Answers};
ghost use Rattle.sized_texts.specs.Filling.{filled};
ghost use Rattle.sized_texts.specs.declared.size.Size.{Size};
ghost use Rattle.write_rules.specs.Verdict.{verdict_of};
ghost use Rattle.system_files.specs.Files.{IsSame};
ghost use Rattle.command_requests.specs.Given.{AreSizesOf};
ghost use Rattle.command_requests.specs.declared.opening.Opening.TheVariants.{Input};
ghost use Rattle.command_requests.specs.declared.request.SizeWord.{SizeWord as SizeWordOf};
ghost use Rattle.command_sweeps.specs.Sweeps as spec;

use command_facts::{FoundSweep, load_program, text_of_fault};
use command_requests::{
    CostWords, MeaningWords, Opening, ProgramFile, SizeWord, SweepWords, sizes_of,
};
use command_runs::find_cost;
use costs::Cost;
use diagnoses::{Halted, write_refused_line};
use pram_trees::Layout;
use program_texts::{Refusal, Stop};
use sized_texts::{SizeFault, Sweep, fill, read_sweep};
use std::alloc::{AllocError, Global};
use std::str;
use sweeps::{Counts, Ending, SizeRow, growths_of};
use system_files::{Sources, Unwatched};
use text_out::Buffer;
use write_rules::{Fault, Outcome};

// The file, with the word of a sweep at a size.
fn file_at<'a>(
    alloc: Global,
    file: &ProgramFile<'a>,
    word: &'a str,
    size: u64,
) -> Result<ProgramFile<'a>, AllocError>
    ensures { IfOk result (spec.IsWithWord file.now word.now size) }
{
    let mut sizes = Vec::from_slice(alloc, &file.sizes)?;
    sizes.push(SizeWord::Swept(word, size))?;
    Ok(ProgramFile {
        name: file.name,
        sizes,
    })
}

fn counts_of(cost: &Cost) -> Counts
    ensures { result ≡ spec.counts_of cost.now }
{
    Counts {
        time: cost.time,
        work: cost.work,
        width: cost.width,
        reads: cost.reads,
        writes: cost.writes,
        most_exchanges: cost.most_exchanges,
        most_words: cost.most_words,
    }
}

// How a run comes out, with what it costs.
fn ending_by(
    alloc: Global,
    layout: &Layout,
    outcome: &Outcome,
    cost: &Cost,
) -> Result<Ending, AllocError>
    ensures { IfOk result (spec.IsEndingBy layout.now (verdict_of outcome.now) cost.now) }
{
    let counts = counts_of(cost);
    match outcome {
        Outcome::Ended { .. } => Ok(Ending::Ended(counts)),
        Outcome::GoesOn { .. } => Ok(Ending::GoesOn(counts)),
        Outcome::Faulted { fault, .. } => {
            let text = text_of_fault(alloc, layout, fault)?;
            Ok(Ending::Faulted(counts, text))
        }
    }
}

// The line of a refusal, without its end.
fn refused(alloc: Global, halted: &Halted<'_>) -> Result<Ending, AllocError>
    ensures { IfOk result (spec.IsRefusedFor halted.now) }
{
    let mut line = Buffer::new(alloc);
    if write_refused_line(&mut line, &halted.stop, &halted.about).is_err() {
        return Err(AllocError);
    }
    let bytes = line.bytes();
    let text = Vec::from_slice(alloc, &bytes[..bytes.len().saturating_sub(1)])?;
    Ok(Ending::Refused(text))
}

// What the run on these cells comes to.
fn run_by<S: Sources>(
    alloc: Global,
    at: &ProgramFile<'_>,
    words: SweepWords<'_>,
    opening: Opening<'_>,
    sources: &mut S,
) -> Result<Ending, AllocError>
    ensures out { IfOk result (spec.RunsAs (S.Sources.holds sources.old) at.now words.entry opening.entry) }
    ensures same { IsSame (S.Sources.holds sources.new) (S.Sources.holds sources.old) }
{
    let asked = MeaningWords {
        opening,
        bound: words.bound,
        seconds: None,
    };
    let costs = CostWords {
        schedule: None,
        workers: words.workers,
        lines: false,
    };
    match find_cost(alloc, at, asked, costs, sources, &mut Unwatched) {
        Ok((run, cost)) => ending_by(alloc, run.loaded.program.layout(), &run.outcome, &cost),
        Err(halted) => refused(alloc, &halted),
    }
}

// Why a name has none by some sizes.
fn stop_of_name<'a>(fault: SizeFault, name: &'a str) -> Stop<'a>
    ensures { (words : List SizeWordOf) (sizes : List Size) → AreSizesOf words sizes →
        Answers {X = List ℕ} (λ text. text) (Err fault) (filled sizes name.now) → spec.HasNoNameFor words name.now result }
{
    match fault {
        SizeFault::BadSize(_, _) => Stop::Number(name),
        SizeFault::TooLong => Stop::Number(name),
        SizeFault::NotDeclared(_) => Stop::Number(name),
        SizeFault::OutOfMemory => Stop::Refused(Refusal::OutOfMemory),
    }
}

// The name of an input's file by the sizes of these words.
fn filled_name<'a>(
    alloc: Global,
    words: &[SizeWord<'a>],
    name: &'a str,
) -> Result<Vec<u8>, Stop<'a>>
    ensures filled { IfOk result (λ text. (sizes : List Size) × AreSizesOf words.now sizes × (filled sizes name.now ≡ Ok text.items)) }
    ensures unfilled { IfErr result (spec.IsUnfilled words.now name.now) }
{
    let sizes = sizes_of(alloc, words)?;
    match fill(alloc, &sizes, name.as_bytes()) {
        Ok(filled) => Ok(filled),
        Err(fault) => Err(stop_of_name(fault, name)),
    }
}

// What the run comes to whose input is read from the file of the name that the sizes give.
fn with_input<S: Sources>(
    alloc: Global,
    at: &ProgramFile<'_>,
    name: &str,
    words: SweepWords<'_>,
    sources: &mut S,
) -> Result<Ending, AllocError>
    requires { words.opening ≡ Input name }
    ensures out { IfOk result (spec.ComesOut (S.Sources.holds sources.old) at.now words.entry) }
    ensures same { IsSame (S.Sources.holds sources.new) (S.Sources.holds sources.old) }
{
    let filled = match filled_name(alloc, &at.sizes, name) {
        Ok(filled) => filled,
        Err(stop) => return refused(alloc, &Halted::from(stop)),
    };
    match str::from_utf8(&filled) {
        Ok(name) => run_by(alloc, at, words, Opening::Input(name), sources),
        Err(_) => refused(alloc, &Halted::from(Stop::Number(name))),
    }
}

// What the call at a size comes to.
fn out_at<S: Sources>(
    alloc: Global,
    at: &ProgramFile<'_>,
    words: SweepWords<'_>,
    sources: &mut S,
) -> Result<Ending, AllocError>
    ensures out { IfOk result (spec.ComesOut (S.Sources.holds sources.old) at.now words.entry) }
    ensures same { IsSame (S.Sources.holds sources.new) (S.Sources.holds sources.old) }
{
    match words.opening {
        Opening::Input(name) => with_input(alloc, at, name, words, sources),
        Opening::Zeros | Opening::Memory(_) | Opening::Drawn(_) | Opening::OfKind(_, _) => {
            run_by(alloc, at, words, words.opening, sources)
        }
    }
}

// What is told of a size.
fn row_at<S: Sources>(
    alloc: Global,
    file: &ProgramFile<'_>,
    words: SweepWords<'_>,
    size: u64,
    sources: &mut S,
) -> Result<SizeRow, AllocError>
    ensures row { IfOk result (spec.IsRow (S.Sources.holds sources.old) file.now words.entry size) }
    ensures same { IsSame (S.Sources.holds sources.new) (S.Sources.holds sources.old) }
{
    let at = file_at(alloc, file, words.word, size)?;
    let ending = out_at(alloc, &at, words, sources)?;
    Ok(SizeRow { size, ending })
}

fn add_row(rows: &mut Vec<SizeRow>, row: SizeRow) -> Result<(), AllocError>
    ensures { OnOk result (rows.new.items ≡ rows.old.items ++ row ∷ []) }
{
    rows.push(row)?;
    Ok(())
}

// A row for each size.
fn rows_of<S: Sources>(
    alloc: Global,
    file: &ProgramFile<'_>,
    words: SweepWords<'_>,
    sizes: &[u64],
    sources: &mut S,
) -> Result<Vec<SizeRow>, AllocError>
    ensures rows { IfOk result (λ rows. AllZip (spec.IsRow (S.Sources.holds sources.old) file.now words.entry) sizes.now
        rows.items) }
    ensures same { IsSame (S.Sources.holds sources.new) (S.Sources.holds sources.old) }
{
    let mut rows = Vec::new(alloc);
    for size in sizes {
        let row = row_at(alloc, file, words, *size, sources)?;
        add_row(&mut rows, row)?;
    }
    Ok(rows)
}

fn is_refusal(ending: &Ending) -> bool
    ensures { result ≡ spec.is_refusal ending.now }
{
    match ending {
        Ending::Refused(_) => true,
        Ending::Ended(_) => false,
        Ending::GoesOn(_) => false,
        Ending::Faulted(_, _) => false,
    }
}

// Whether some size has a run.
fn has_run(rows: &[SizeRow]) -> bool
    ensures { result ≡ list_any (λ r. spec.is_run r.ending) rows.now }
{
    for row in rows {
        if !is_refusal(&row.ending) {
            return true;
        }
    }
    false
}

// Stops at the program at a size, if it is refused.
fn check_program<'a, S: Sources>(
    alloc: Global,
    file: &ProgramFile<'a>,
    word: &'a str,
    size: u64,
    sources: &mut S,
) -> Result<(), Halted<'a>>
    ensures { IfErr result (spec.IsProgramRefused (S.Sources.holds sources.old) file.now word.now size) }
{
    let Ok(at) = file_at(alloc, file, word, size) else {
        return Err(Halted::from(Stop::Refused(Refusal::OutOfMemory)));
    };
    load_program(alloc, sources, &at)?;
    Ok(())
}

// Stops at the program at the first of some sizes.
fn check_first<'a, S: Sources>(
    alloc: Global,
    file: &ProgramFile<'a>,
    word: &'a str,
    sizes: &[u64],
    sources: &mut S,
) -> Result<(), Halted<'a>>
    ensures { IfErr result (λ h. (first : ℕ) × IsSomeAnd (slice_get sizes.now 0) (λ s. first ≡ s)
        × spec.IsProgramRefused (S.Sources.holds sources.old) file.now word.now first h) }
{
    match sizes {
        [] => Ok(()),
        [first, ..] => check_program(alloc, file, word, *first, sources),
    }
}

// Rows, of which one at least has a run, or else the program at the first size is accepted.
fn checked_rows<'a, S: Sources>(
    alloc: Global,
    file: &ProgramFile<'a>,
    words: SweepWords<'a>,
    sizes: &[u64],
    sources: &mut S,
) -> Result<Vec<SizeRow>, Halted<'a>>
    ensures rows { IfOk result (λ rows. AllZip (spec.IsRow (S.Sources.holds sources.old) file.now words.entry) sizes.now
        rows.items) }
    ensures refused { IfErr result (spec.HasNoRows (S.Sources.holds sources.old) file.now words.entry sizes.now) }
{
    let Ok(rows) = rows_of(alloc, file, words, sizes, sources) else {
        return Err(Halted::from(Stop::Refused(Refusal::OutOfMemory)));
    };
    if !has_run(&rows) {
        check_first(alloc, file, words.word, sizes, sources)?;
    }
    Ok(rows)
}

// The sizes of a sweep's word.
fn sweep_of<'a>(alloc: Global, word: &'a str) -> Result<Sweep, Halted<'a>>
    ensures sweep { IfOk result (λ sweep. IsSweepOf word.now (Some sweep)) }
    ensures none { IfErr result (spec.HasNoSweep word.now) }
{
    match read_sweep(alloc, word) {
        Ok(Some(sweep)) => Ok(sweep),
        Ok(None) => Err(Halted::from(Stop::Number(word))),
        Err(_) => Err(Halted::from(Stop::Refused(Refusal::OutOfMemory))),
    }
}

/// What the runs of a program cost at the sizes of a sweep.
///
/// What is refused at a size is told in its row. Where no size has a run, and the program is refused at the first, the call is refused for
/// that; else P1 is for a word that is that of no sweep, and E16 where memory was refused.
pub fn find_sweep<'a, S: Sources>(
    alloc: Global,
    file: &ProgramFile<'a>,
    words: SweepWords<'a>,
    sources: &mut S,
) -> Result<FoundSweep, Halted<'a>>
    // What is found has a row for each size in order, of just the call at that size, and how time and work grow by these.
    ensures swept { IfOk result (spec.IsSwept (S.Sources.holds sources.old) file.now words.entry) }
    // Nothing is found only for the word, for want of memory, or where no size has a run and the program at the first is refused.
    ensures refused { IfErr result (spec.StopsAtSweep (S.Sources.holds sources.old) file.now words.entry) }
{
    let sweep = sweep_of(alloc, words.word)?;
    let rows = checked_rows(alloc, file, words, &sweep.sizes, sources)?;
    let Ok(growths) = growths_of(alloc, &rows) else {
        return Err(Halted::from(Stop::Refused(Refusal::OutOfMemory)));
    };
    Ok(FoundSweep {
        sweep,
        rows,
        growths,
        form: words.form,
    })
}
