//! The columns of statements.

ghost use Rattle.std.specs.Prelude.{◌≡◌, ◌≤◌, ◌+◌, ◌-◌, length, map};
ghost use Rattle.text_out.specs.Out.{Writes};
ghost use Rattle.journal.specs.Entries.{act_is, entry_is};
ghost use Rattle.pictures.specs.Steps.Columns as spec;
ghost use Rattle.pictures.specs.Steps.Measures.{column_is, frame_is};
ghost use Rattle.svg_texts.specs.Shapes.{shape_text};

use crate::acts::acts_in;
use crate::steps::drawn::met_in;
use crate::steps::frame::{Column, Frame};
use crate::steps::marks::{Corner, write_box, write_outline};
use crate::steps::measure::row_top;
use crate::steps::paints::open_plain;
use crate::steps::program_lines::{code_of, line_of, write_code};
use crate::steps::rows::{missing, place_of};
use journal::{Act, Entry};
use pram_trees::Layout;
use svg_texts::{Anchor, Face, close_text, write_number, write_numbered};
use text_out::{Out, WriteFault};

// The number of a statement.
fn write_statement_number<W: Out>(out: &mut W, at: Column) -> Result<(), WriteFault>
    ensures written { Writes (W.Out.state out.old) (W.Out.state out.new) (shape_text (spec.number (column_is at))) result }
{
    write_number(
        out,
        at.x as u128,
        (at.y - 26) as u128,
        Anchor::Start,
        Face::Plain,
        at.number,
    )
}

fn write_line_number<W: Out>(out: &mut W, at: Column, line: u32) -> Result<(), WriteFault>
    ensures written { Writes (W.Out.state out.old) (W.Out.state out.new) (shape_text (spec.line_number (column_is at) line)) result }
{
    open_plain(out, at.x, at.y - 9)?;
    write_numbered(out, b"line ", line as u128)?;
    close_text(out)
}

// The number of a statement and its line.
fn write_numbers<W: Out>(out: &mut W, at: Column, line: u32) -> Result<(), WriteFault>
    ensures written { Writes (W.Out.state out.old) (W.Out.state out.new) (shape_text (spec.numbers (column_is at) line)) result }
{
    write_statement_number(out, at)?;
    write_line_number(out, at, line)
}

fn write_heading<W: Out>(out: &mut W, text: &[u8], at: Column, line: u32) -> Result<(), WriteFault>
    ensures written { Writes (W.Out.state out.old) (W.Out.state out.new) (shape_text (spec.heading text.now (column_is at) line)) result }
{
    write_code(out, at.x, at.y - 42, code_of(text, line))?;
    write_numbers(out, at, line)
}

// One that acts, in the row behind so many others.
fn write_act_at<W: Out>(
    out: &mut W,
    layout: &Layout,
    rows: &[i64],
    at: Column,
    before: usize,
    act: &Act,
) -> Result<(), WriteFault>
    requires few { length rows.now ≤ 64 }
    ensures written { Writes (W.Out.state out.old) (W.Out.state out.new)
        (shape_text (spec.act_at layout.now rows.now (column_is at) before (act_is act.now))) result }
{
    if before < rows.len() {
        let y = row_top(at.y, before + 1);
        write_box(out, layout, Corner { x: at.x, y }, act)
    } else {
        out.write_all(b"")
    }
}

// The one outside pardo, in row 0.
fn write_outside<W: Out>(
    out: &mut W,
    layout: &Layout,
    at: Column,
    act: &Act,
) -> Result<(), WriteFault>
    ensures written { Writes (W.Out.state out.old) (W.Out.state out.new)
        (shape_text (spec.outside layout.now (column_is at) (act_is act.now))) result }
{
    let y = row_top(at.y, 0);
    write_box(out, layout, Corner { x: at.x, y }, act)
}

fn write_act<W: Out>(
    out: &mut W,
    layout: &Layout,
    rows: &[i64],
    at: Column,
    act: &Act,
) -> Result<(), WriteFault>
    requires few { length rows.now ≤ 64 }
    ensures written { Writes (W.Out.state out.old) (W.Out.state out.new)
        (shape_text (spec.act_drawn layout.now rows.now (column_is at) (act_is act.now))) result }
{
    match act.processor {
        None => write_outside(out, layout, at, act),
        Some(index) => write_act_at(out, layout, rows, at, place_of(rows, index), act),
    }
}

fn write_acts<W: Out>(
    out: &mut W,
    layout: &Layout,
    rows: &[i64],
    at: Column,
    acts: &[Act],
) -> Result<(), WriteFault>
    requires few { length rows.now ≤ 64 }
    ensures written { Writes (W.Out.state out.old) (W.Out.state out.new)
        (shape_text (spec.acts_drawn layout.now rows.now (column_is at) (map act_is acts.now))) result }
{
    for act in acts {
        write_act(out, layout, rows, at, act)?;
    }
    Ok(())
}

// One that met others, in the row behind so many.
fn write_met_at<W: Out>(
    out: &mut W,
    rows: &[i64],
    at: Column,
    before: usize,
    index: i64,
) -> Result<(), WriteFault>
    requires few { length rows.now ≤ 64 }
    ensures written { Writes (W.Out.state out.old) (W.Out.state out.new)
        (shape_text (spec.met_at rows.now (column_is at) before index)) result }
{
    if before < rows.len() {
        let y = row_top(at.y, before + 1);
        write_outline(out, Corner { x: at.x, y }, index)
    } else {
        out.write_all(b"")
    }
}

fn write_met<W: Out>(out: &mut W, rows: &[i64], at: Column, index: &i64) -> Result<(), WriteFault>
    requires few { length rows.now ≤ 64 }
    ensures written { Writes (W.Out.state out.old) (W.Out.state out.new)
        (shape_text (spec.met_drawn rows.now (column_is at) index.now)) result }
{
    write_met_at(out, rows, at, place_of(rows, *index), *index)
}

fn write_all_met<W: Out>(
    out: &mut W,
    rows: &[i64],
    at: Column,
    met: &[i64],
) -> Result<(), WriteFault>
    requires few { length rows.now ≤ 64 }
    ensures written { Writes (W.Out.state out.old) (W.Out.state out.new)
        (shape_text (spec.all_met rows.now (column_is at) met.now)) result }
{
    for index in met {
        write_met(out, rows, at, index)?;
    }
    Ok(())
}

fn write_more_at<W: Out>(out: &mut W, x: usize, y: usize, count: usize) -> Result<(), WriteFault>
    ensures written { Writes (W.Out.state out.old) (W.Out.state out.new) (shape_text (spec.more_at x y count)) result }
{
    open_plain(out, x, y)?;
    write_numbered(out, b"+", count as u128)?;
    close_text(out)
}

// How many more act, below the rows.
fn write_more<W: Out>(out: &mut W, rows: usize, at: Column, count: usize) -> Result<(), WriteFault>
    requires few { rows ≤ 64 }
    ensures written { Writes (W.Out.state out.old) (W.Out.state out.new) (shape_text (spec.more_acting rows (column_is at) count)) result }
{
    if count == 0 {
        out.write_all(b"")
    } else {
        write_more_at(out, at.x, row_top(at.y, rows + 1) + 13, count)
    }
}

// How many of those that act have no row.
fn write_missing<W: Out>(
    out: &mut W,
    rows: &[i64],
    at: Column,
    acts: &[Act],
) -> Result<(), WriteFault>
    requires few { length rows.now ≤ 64 }
    ensures written { Writes (W.Out.state out.old) (W.Out.state out.new)
        (shape_text (spec.without_row rows.now (column_is at) (map act_is acts.now))) result }
{
    write_more(out, rows.len(), at, missing(rows, acts))
}

// The processors of a statement.
fn write_processors<W: Out>(
    out: &mut W,
    layout: &Layout,
    rows: &[i64],
    at: Column,
    acts: &[Act],
    met: &[i64],
) -> Result<(), WriteFault>
    requires few { length rows.now ≤ 64 }
    ensures written { Writes (W.Out.state out.old) (W.Out.state out.new)
        (shape_text (spec.processors layout.now rows.now (column_is at) (map act_is acts.now) met.now)) result }
{
    write_acts(out, layout, rows, at, acts)?;
    write_all_met(out, rows, at, met)?;
    write_missing(out, rows, at, acts)
}

/// Writes the column of a statement.
pub(crate) fn write_column<W: Out>(
    out: &mut W,
    frame: &Frame<'_>,
    at: Column,
    entry: &Entry,
) -> Result<(), WriteFault>
    ensures written { Writes (W.Out.state out.old) (W.Out.state out.new)
        (shape_text (spec.column (frame_is frame.now) (column_is at) (entry_is entry.now))) result }
{
    write_heading(out, frame.text, at, line_of(entry))?;
    write_processors(
        out,
        frame.layout,
        frame.rows,
        at,
        acts_in(entry),
        met_in(entry),
    )
}
