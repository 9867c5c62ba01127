//! What is written of programs that are graded.

ghost use Rattle.std.specs.Prelude.{◌≡◌, ◌++◌, List, map};
ghost use Rattle.text_out.specs.Out.{Writes};
ghost use Rattle.comparing.specs.Found.{differing_is};
ghost use Rattle.text_places.specs.Escaped.{escaped};
ghost use Rattle.command_facts.specs.Written.{Wrote};
ghost use Rattle.command_text.specs.Grades as spec;

use command_facts::{FoundGrade, FoundPair, GradeRow, passing};
use comparing::{FoundDifference, Score, write_whose};
use diagnoses::{Halted, write_refused_line};
use itoa::Buffer;
use pram_trees::Layout;
use program_texts::{Status, Stop, finish, write_values};
use text_out::{Out, WriteFault};
use text_places::write_escaped;

fn verdict_word(passes: bool) -> &'static [u8]
    ensures { result.now ≡ spec.verdict_word passes }
{
    if passes { b" pass" } else { b" fail" }
}

// Whether the program passes, and on how many of the inputs it is right.
fn write_verdict<W: Out>(out: &mut W, pair: &FoundPair) -> Result<(), WriteFault>
    ensures written { Writes (W.Out.state out.old) (W.Out.state out.new) (spec.verdict_text pair.now) result }
{
    let mut correct = Buffer::new();
    let mut counting = Buffer::new();
    out.write_parts(&[
        verdict_word(pair.passes()),
        b" correct ",
        correct.format(pair.correct()).as_bytes(),
        b" of ",
        counting.format(pair.comparison.counting).as_bytes(),
    ])
}

// On how many it faults, goes on, or is above a limit.
fn write_counts<W: Out>(out: &mut W, score: &Score) -> Result<(), WriteFault>
    ensures written { Writes (W.Out.state out.old) (W.Out.state out.new) (spec.counts_text score.now) result }
{
    let mut faulted = Buffer::new();
    let mut going_on = Buffer::new();
    let mut above = Buffer::new();
    out.write_parts(&[
        b" faults ",
        faulted.format(score.faulted).as_bytes(),
        b" goes-on ",
        going_on.format(score.going_on).as_bytes(),
        b" above ",
        above.format(score.above).as_bytes(),
    ])
}

// The most that its runs take.
fn write_costs<W: Out>(out: &mut W, score: &Score) -> Result<(), WriteFault>
    ensures written { Writes (W.Out.state out.old) (W.Out.state out.new) (spec.costs_text score.now) result }
{
    let mut time = Buffer::new();
    let mut work = Buffer::new();
    out.write_parts(&[
        b" time ",
        time.format(score.most_time).as_bytes(),
        b" work ",
        work.format(score.most_work).as_bytes(),
    ])
}

// How many processors it declares.
fn write_procs<W: Out>(out: &mut W, procs: u32) -> Result<(), WriteFault>
    ensures written { Writes (W.Out.state out.old) (W.Out.state out.new) (spec.procs_text procs) result }
{
    let mut digits = Buffer::new();
    out.write_parts(&[b" procs ", digits.format(procs).as_bytes()])
}

// How many it may declare.
fn write_most<W: Out>(out: &mut W, most: u64) -> Result<(), WriteFault>
    ensures written { Writes (W.Out.state out.old) (W.Out.state out.new) (spec.most_text most) result }
{
    let mut digits = Buffer::new();
    out.write_parts(&[b" above ", digits.format(most).as_bytes()])
}

// That, where it declares more.
fn write_most_where<W: Out>(out: &mut W, keeps: bool, most: Option<u64>) -> Result<(), WriteFault>
    ensures written { Writes (W.Out.state out.old) (W.Out.state out.new) (spec.excess_of keeps most) result }
{
    match (most, keeps) {
        (None, _) | (Some(_), true) => out.write_all(b""),
        (Some(most), false) => write_most(out, most),
    }
}

fn write_excess<W: Out>(out: &mut W, pair: &FoundPair) -> Result<(), WriteFault>
    ensures written { Writes (W.Out.state out.old) (W.Out.state out.new) (spec.excess_text pair.now) result }
{
    write_most_where(out, pair.keeps_procs(), pair.most_procs)
}

fn write_rule<W: Out>(out: &mut W, pair: &FoundPair) -> Result<(), WriteFault>
    ensures written { Writes (W.Out.state out.old) (W.Out.state out.new) (spec.rule_text pair.now) result }
{
    out.write_parts(&[b" rule ", pair.rule.word().as_bytes()])
}

// The rule of its text, and what differs first.
fn write_numbers<W: Out>(out: &mut W, pair: &FoundPair) -> Result<(), WriteFault>
    ensures written { Writes (W.Out.state out.old) (W.Out.state out.new) (spec.numbers_text pair.now) result }
{
    write_verdict(out, pair)?;
    write_counts(out, &pair.comparison.score)?;
    write_costs(out, &pair.comparison.score)?;
    write_procs(out, pair.second.procs())?;
    write_excess(out, pair)?;
    write_rule(out, pair)
}

// An input, and what differs on it.
fn write_differing<W: Out>(
    out: &mut W,
    first_name: &str,
    second_name: &str,
    first: &Layout,
    second: &Layout,
    found: &FoundDifference,
) -> Result<(), WriteFault>
    ensures written { Writes (W.Out.state out.old) (W.Out.state out.new)
        (spec.differing_text first_name.now second_name.now first.now second.now (differing_is found.now)) result }
{
    out.write_all(b" input")?;
    write_values(out, found.input.as_slice())?;
    out.write_all(b": ")?;
    write_whose(
        out,
        first_name,
        second_name,
        first,
        second,
        &found.difference,
    )
}

// Of the inputs on which they differ the first.
fn write_first<W: Out>(
    out: &mut W,
    first_name: &str,
    second_name: &str,
    first: &Layout,
    second: &Layout,
    told: &[FoundDifference],
) -> Result<(), WriteFault>
    ensures written { Writes (W.Out.state out.old) (W.Out.state out.new)
        (spec.first_text first_name.now second_name.now first.now second.now (map differing_is told.now)) result }
{
    match told {
        [] => out.write_all(b""),
        [found, ..] => write_differing(out, first_name, second_name, first, second, found),
    }
}

// What is found of a program, and the end of its line.
fn write_graded<W: Out>(
    out: &mut W,
    first_name: &str,
    second_name: &str,
    pair: &FoundPair,
) -> Result<(), WriteFault>
    ensures written { Writes (W.Out.state out.old) (W.Out.state out.new)
        (spec.graded_text first_name.now second_name.now pair.now) result }
{
    let (first, second) = (pair.first.layout(), pair.second.layout());
    write_numbers(out, pair)?;
    write_first(
        out,
        first_name,
        second_name,
        first,
        second,
        &pair.comparison.told,
    )?;
    out.write_all(b"\n")
}

// Why nothing is found of it.
fn write_refused<W: Out>(out: &mut W, halted: &Halted<'_>) -> Result<(), WriteFault>
    ensures written { Writes (W.Out.state out.old) (W.Out.state out.new) (spec.refused_text halted.now) result }
{
    out.write_all(b" fail ")?;
    write_refused_line(out, &halted.stop, &halted.about)
}

fn write_behind<W: Out>(out: &mut W, first_name: &str, row: &GradeRow<'_>) -> Result<(), WriteFault>
    ensures written { Writes (W.Out.state out.old) (W.Out.state out.new)
        (spec.behind_text first_name.now row.now.name.now row.now.graded) result }
{
    match &row.graded {
        Ok(pair) => write_graded(out, first_name, row.name, pair),
        Err(halted) => write_refused(out, halted),
    }
}

// The name of a program's file.
fn write_name<W: Out>(out: &mut W, name: &str) -> Result<(), WriteFault>
    ensures written { Writes (W.Out.state out.old) (W.Out.state out.new) (escaped name.now) result }
{
    write_escaped(out, name.as_bytes())
}

fn write_row<W: Out>(out: &mut W, first_name: &str, row: &GradeRow<'_>) -> Result<(), WriteFault>
    ensures written { Writes (W.Out.state out.old) (W.Out.state out.new) (spec.row_text first_name.now row.now) result }
{
    write_name(out, row.name)?;
    write_behind(out, first_name, row)
}

fn write_rows<W: Out>(
    out: &mut W,
    first_name: &str,
    rows: &[GradeRow<'_>],
) -> Result<(), WriteFault>
    ensures written { Writes (W.Out.state out.old) (W.Out.state out.new) (spec.rows_text first_name.now rows.now) result }
{
    for row in rows {
        write_row(out, first_name, row)?;
    }
    Ok(())
}

// How many pass.
fn write_passing<W: Out>(out: &mut W, rows: &[GradeRow<'_>]) -> Result<(), WriteFault>
    ensures written { Writes (W.Out.state out.old) (W.Out.state out.new) (spec.passing_text rows.now) result }
{
    let mut pass = Buffer::new();
    let mut all = Buffer::new();
    out.write_parts(&[
        pass.format(passing(rows)).as_bytes(),
        b" of ",
        all.format(rows.len()).as_bytes(),
        b" pass\n",
    ])
}

fn write_all_rows<W: Out>(out: &mut W, found: &FoundGrade<'_>) -> Result<(), WriteFault>
    ensures written { Writes (W.Out.state out.old) (W.Out.state out.new) (spec.grade_text found.now) result }
{
    write_rows(out, found.name, &found.rows)?;
    write_passing(out, &found.rows)
}

/// Writes what is found of programs that are graded, a line for each and one at the end, and ends with that status.
pub(crate) fn write_grade<'a, O: Out>(
    out: &mut O,
    found: &FoundGrade<'_>,
    status: Status,
) -> Result<Status, Stop<'a>>
    ensures written { Wrote status (spec.grade_text found.now) (O.Out.state out.old) (O.Out.state out.new) result }
{
    write_all_rows(out, found)?;
    finish(out, status)
}
