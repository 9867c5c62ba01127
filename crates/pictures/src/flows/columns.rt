//! The columns of statements.

ghost use Rattle.std.specs.Prelude.{◌≡◌, ◌<◌, ◌^◌, map};
ghost use Rattle.text_out.specs.Out.{Writes};
ghost use Rattle.journal.specs.Entries.{entry_is};
ghost use Rattle.pictures.specs.Flows.Drawing.{column_is};
ghost use Rattle.svg_texts.specs.Shapes.{shape_text};
ghost use Rattle.pictures.specs.Flows.Table as table;
ghost use Rattle.pictures.specs.Flows.Columns as spec;

use crate::flows::column::Column;
use crate::flows::entries::location_in;
use crate::flows::faults::write_fault_part;
use crate::flows::letters::{source_at, write_source};
use crate::flows::marks::write_marks;
use crate::flows::measure::{x_of, y_at};
use journal::Entry;
use pram_trees::Layout;
use svg_texts::{Anchor, Face, close_text, open_label, write_number, write_numbered};
use text_out::{Out, WriteFault};

// The number of a statement.
fn write_place_number<W: Out>(out: &mut W, x: u128, number: usize) -> Result<(), WriteFault>
    ensures written { Writes (W.Out.state out.old) (W.Out.state out.new) (shape_text (spec.number_shape x number)) result }
{
    write_number(out, x, 272, Anchor::Middle, Face::Bold, number as u128)
}

// Its line.
fn write_line<W: Out>(out: &mut W, x: u128, line: u32) -> Result<(), WriteFault>
    ensures written { Writes (W.Out.state out.old) (W.Out.state out.new) (shape_text (spec.line_shape x line)) result }
{
    open_label(out, x, 286, Anchor::Middle, Face::Plain)?;
    write_numbered(out, b"line ", line as u128)?;
    close_text(out)
}

fn write_entry_line<W: Out>(out: &mut W, x: u128, entry: &Entry) -> Result<(), WriteFault>
    ensures written { Writes (W.Out.state out.old) (W.Out.state out.new) (shape_text (spec.entry_line x (entry_is entry.now))) result }
{
    write_line(out, x, location_in(entry).line)
}

fn write_place<W: Out>(out: &mut W, x: u128, number: usize, entry: &Entry) -> Result<(), WriteFault>
    ensures written { Writes (W.Out.state out.old) (W.Out.state out.new)
        (shape_text (spec.place_shape x number (entry_is entry.now))) result }
{
    write_place_number(out, x, number)?;
    write_entry_line(out, x, entry)
}

fn write_line_source<W: Out>(
    out: &mut W,
    text: &[u8],
    x: u128,
    entry: &Entry,
) -> Result<(), WriteFault>
    requires near { x < 2 ^ 100 }
    ensures written { Writes (W.Out.state out.old) (W.Out.state out.new)
        (shape_text (spec.line_source text.now x (entry_is entry.now))) result }
{
    write_source(out, x, source_at(text, location_in(entry).offset))
}

fn write_heading_at<W: Out>(
    out: &mut W,
    text: &[u8],
    x: u128,
    number: usize,
    entry: &Entry,
) -> Result<(), WriteFault>
    requires near { x < 2 ^ 100 }
    ensures written { Writes (W.Out.state out.old) (W.Out.state out.new)
        (shape_text (spec.heading_at text.now x number (entry_is entry.now))) result }
{
    write_place(out, x, number, entry)?;
    write_line_source(out, text, x, entry)
}

// What stands above a column.
fn write_heading<W: Out>(
    out: &mut W,
    text: &[u8],
    column: usize,
    number: usize,
    entry: &Entry,
) -> Result<(), WriteFault>
    ensures written { Writes (W.Out.state out.old) (W.Out.state out.new)
        (shape_text (spec.heading text.now column number (entry_is entry.now))) result }
{
    write_heading_at(out, text, x_of(column), number, entry)
}

// Where the line below the rows stands.
fn bottom(rows: &[u32]) -> u128
    ensures y { result ≡ spec.bottom rows.now }
    ensures near { result < 2 ^ 100 }
{
    y_at(rows.len()) + 10
}

fn write_column_fault<W: Out>(
    out: &mut W,
    layout: &Layout,
    rows: &[u32],
    column: usize,
    entry: &Entry,
) -> Result<(), WriteFault>
    ensures written { Writes (W.Out.state out.old) (W.Out.state out.new)
        (shape_text (spec.column_fault layout.now rows.now column (entry_is entry.now))) result }
{
    write_fault_part(out, layout, rows, x_of(column), bottom(rows), entry)
}

fn write_column<W: Out>(
    out: &mut W,
    layout: &Layout,
    text: &[u8],
    rows: &[u32],
    column: usize,
    drawn: &Column,
) -> Result<(), WriteFault>
    ensures written { Writes (W.Out.state out.old) (W.Out.state out.new)
        (shape_text (spec.column_shape layout.now text.now rows.now column (column_is drawn.now))) result }
{
    write_heading(out, text, column, drawn.number, &drawn.entry)?;
    write_marks(out, rows, column, drawn)?;
    write_column_fault(out, layout, rows, column, &drawn.entry)
}

/// Writes the columns of the statements that are drawn.
pub(crate) fn write_columns<W: Out>(
    out: &mut W,
    layout: &Layout,
    text: &[u8],
    rows: &[u32],
    columns: &[Column],
) -> Result<(), WriteFault>
    ensures written { Writes (W.Out.state out.old) (W.Out.state out.new)
        (shape_text (table.columns layout.now text.now rows.now 1 (map column_is columns.now))) result }
{
    let mut before = 0usize;
    for column in columns {
        write_column(out, layout, text, rows, before + 1, column)?;
        before += 1;
    }
    Ok(())
}
