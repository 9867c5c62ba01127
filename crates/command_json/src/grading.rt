//! Programs that are graded, told as lines of JSON.

ghost use Rattle.std.specs.Prelude.{◌≡◌, ◌∷◌, [], IfOk, OnOk, length, map};
ghost use Rattle.std.specs.String.{string_bytes};
ghost use Rattle.diagnoses.specs.RefusedLines.{stop_as_it_stands};
ghost use Rattle.diagnoses.specs.Stops.{bytes_in as bytes_of};
ghost use Rattle.json_texts.specs.GradeFacts.{passing_facts, ungraded_facts};
ghost use Rattle.command_facts.specs.Grades.{passing as count_passing};
ghost use Rattle.json_texts.specs.Lines.{Adds, IsJson};
ghost use Rattle.command_json.specs.Grades as spec;

use command_facts::{FoundGrade, FoundPair, GradeRow, passing};
use diagnoses::{Halted, bytes_in, refusal_as_it_stands};
use json_texts::{Marks, push_graded, push_passing, push_ungraded};
use program_texts::Stop;
use std::alloc::{AllocError, Global};

fn marks_of(pair: &FoundPair) -> Marks
    ensures { result ≡ spec.marks_of pair.now }
{
    Marks {
        passes: pair.passes(),
        correct: pair.correct(),
        rule: pair.rule,
        procs: pair.second.procs(),
        most_procs: pair.most_procs,
    }
}

// The line of a program that is run.
fn push_pair(
    alloc: Global,
    text: &mut String,
    name: &str,
    pair: &FoundPair,
) -> Result<(), AllocError>
    ensures json { OnOk result (Adds (spec.found_facts name.now (Ok pair.now) ∷ []) (string_bytes text.old) (string_bytes text.new)) }
{
    let (first, second) = (pair.first.layout(), pair.second.layout());
    push_graded(
        alloc,
        text,
        name,
        marks_of(pair),
        first,
        second,
        &pair.comparison,
    )
}

// The line of one that is refused, with its offset in the file.
fn push_refused(
    alloc: Global,
    text: &mut String,
    name: &str,
    halted: &Halted<'_>,
) -> Result<(), AllocError>
    ensures json { OnOk result (Adds (ungraded_facts name.now (bytes_of halted.now.about)
        (stop_as_it_stands halted.now.about halted.now.stop) ∷ []) (string_bytes text.old) (string_bytes text.new)) }
{
    let bytes = bytes_in(&halted.about);
    match refusal_as_it_stands(&halted.stop, &halted.about) {
        Some(refusal) => push_ungraded(alloc, text, name, bytes, &Stop::Refused(refusal)),
        None => push_ungraded(alloc, text, name, bytes, &halted.stop),
    }
}

fn push_row(alloc: Global, text: &mut String, row: &GradeRow<'_>) -> Result<(), AllocError>
    ensures json { OnOk result (Adds (spec.row_facts row.now ∷ []) (string_bytes text.old) (string_bytes text.new)) }
{
    match &row.graded {
        Ok(pair) => push_pair(alloc, text, row.name, pair),
        Err(halted) => push_refused(alloc, text, row.name, halted),
    }
}

fn rows_text(alloc: Global, rows: &[GradeRow<'_>]) -> Result<String, AllocError>
    ensures json { IfOk result (λ text. IsJson (map spec.row_facts rows.now) (string_bytes text)) }
{
    let mut text = String::new(alloc);
    for row in rows {
        push_row(alloc, &mut text, row)?;
    }
    Ok(text)
}

// The line of how many pass.
fn push_count(alloc: Global, text: &mut String, rows: &[GradeRow<'_>]) -> Result<(), AllocError>
    ensures json { OnOk result (Adds (passing_facts (count_passing rows.now) (length rows.now) ∷ []) (string_bytes text.old)
        (string_bytes text.new)) }
{
    push_passing(alloc, text, passing(rows), rows.len())
}

/// The lines of programs that are graded: one for each, and one for how many pass.
pub(crate) fn grade_text(alloc: Global, found: &FoundGrade<'_>) -> Result<String, AllocError>
    ensures told { IfOk result (λ text. IsJson (spec.grade_facts found.now) (string_bytes text)) }
{
    let mut text = rows_text(alloc, &found.rows)?;
    push_count(alloc, &mut text, &found.rows)?;
    Ok(text)
}
