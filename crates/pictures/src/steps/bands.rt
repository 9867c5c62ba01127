//! Bands of columns.

ghost use Rattle.std.specs.Prelude.{◌≡◌, ◌≤◌, ◌<◌, ◌+◌, ◌^◌, length, map};
ghost use Rattle.std.specs.Fmt.{signed_decimal};
ghost use Rattle.text_out.specs.Out.{Writes};
ghost use Rattle.journal.specs.Entries.{entry_is};
ghost use Rattle.pictures.specs.Steps.Bands as spec;
ghost use Rattle.pictures.specs.Steps.Measures.{column_at, column_is, frame_is};
ghost use Rattle.svg_texts.specs.Shapes.{shape_text};

use crate::steps::columns::write_column;
use crate::steps::frame::{Column, Frame};
use crate::steps::measure::{column_left, row_top, rows_top};
use crate::steps::paints::{open_plain, write_axis, write_note};
use itoa::Buffer;
use journal::Entry;
use svg_texts::close_text;
use text_out::{Out, WriteFault};

fn write_axes<W: Out>(out: &mut W, top: usize) -> Result<(), WriteFault>
    requires some { 42 ≤ top }
    ensures written { Writes (W.Out.state out.old) (W.Out.state out.new) (shape_text (spec.axes top)) result }
{
    write_axis(out, top - 26, b"statement")?;
    write_axis(out, top - 9, b"processor")
}

// The titles of the axes, and the name of the first row.
fn write_titles<W: Out>(out: &mut W, top: usize) -> Result<(), WriteFault>
    requires some { 42 ≤ top }
    requires near { top ≤ 20000 }
    ensures written { Writes (W.Out.state out.old) (W.Out.state out.new) (shape_text (spec.titles top)) result }
{
    write_axes(out, top)?;
    write_note(out, 12, top + 13, b"outside")
}

fn write_index<W: Out>(out: &mut W, index: i64) -> Result<(), WriteFault>
    ensures written { Writes (W.Out.state out.old) (W.Out.state out.new) (signed_decimal index) result }
{
    let mut digits = Buffer::new();
    out.write_all(digits.format(index).as_bytes())
}

// A processor's name in front of its row.
fn write_label<W: Out>(out: &mut W, y: usize, index: &i64) -> Result<(), WriteFault>
    ensures written { Writes (W.Out.state out.old) (W.Out.state out.new) (shape_text (spec.label y index.now)) result }
{
    open_plain(out, 12, y)?;
    write_index(out, *index)?;
    close_text(out)
}

// Where the name of the row behind so many others stands.
fn label_line(top: usize, before: usize) -> usize
    requires near { top ≤ 20000 }
    requires few { before < 64 }
    ensures { result ≡ spec.label_line top (before + 1) }
{
    row_top(top, before + 1) + 13
}

fn write_labels<W: Out>(out: &mut W, top: usize, rows: &[i64]) -> Result<(), WriteFault>
    requires near { top ≤ 20000 }
    requires few { length rows.now ≤ 64 }
    ensures written { Writes (W.Out.state out.old) (W.Out.state out.new) (shape_text (spec.labels_from top 1 rows.now)) result }
{
    let mut before = 0;
    for index in rows {
        write_label(out, label_line(top, before), index)?;
        before += 1;
    }
    Ok(())
}

// What a band begins with.
fn write_band_front<W: Out>(out: &mut W, rows: &[i64], top: usize) -> Result<(), WriteFault>
    requires some { 42 ≤ top }
    requires near { top ≤ 20000 }
    requires few { length rows.now ≤ 64 }
    ensures written { Writes (W.Out.state out.old) (W.Out.state out.new) (shape_text (spec.band_front rows.now top)) result }
{
    write_titles(out, top)?;
    write_labels(out, top, rows)
}

fn write_front<W: Out>(out: &mut W, frame: &Frame<'_>, before: usize) -> Result<(), WriteFault>
    requires few { before < 112 }
    ensures written { Writes (W.Out.state out.old) (W.Out.state out.new) (shape_text (spec.front_of (frame_is frame.now) before)) result }
{
    if before % 16 == 0 {
        write_band_front(out, frame.rows, rows_top(frame, before))
    } else {
        out.write_all(b"")
    }
}

// The column of a statement of that number, behind so many others.
fn column_of(frame: &Frame<'_>, before: usize, number: usize) -> Column
    requires few { before < 112 }
    ensures { column_is result ≡ column_at (frame_is frame.now) before number }
{
    Column {
        x: column_left(before),
        y: rows_top(frame, before),
        number: number as u128 + frame.part.skipped as u128,
    }
}

// The same with what its band begins with, if it is the first there.
fn write_with_front<W: Out>(
    out: &mut W,
    frame: &Frame<'_>,
    before: usize,
    number: usize,
    entry: &Entry,
) -> Result<(), WriteFault>
    requires few { before < 112 }
    ensures written { Writes (W.Out.state out.old) (W.Out.state out.new)
        (shape_text (spec.with_front (frame_is frame.now) before number (entry_is entry.now))) result }
{
    write_front(out, frame, before)?;
    write_column(out, frame, column_of(frame, before, number), entry)
}

/// Writes the columns of entries that are numbered from a number on, behind so many others.
pub(crate) fn write_columns<W: Out>(
    out: &mut W,
    frame: &Frame<'_>,
    first: usize,
    number: usize,
    entries: &[Entry],
) -> Result<(), WriteFault>
    requires few { first + length entries.now ≤ 112 }
    requires number { number + length entries.now < 2 ^ 64 }
    ensures written { Writes (W.Out.state out.old) (W.Out.state out.new)
        (shape_text (spec.columns_from (frame_is frame.now) first number (map entry_is entries.now))) result }
{
    let mut before = 0;
    for entry in entries {
        write_with_front(out, frame, first + before, number + before, entry)?;
        before += 1;
    }
    Ok(())
}
