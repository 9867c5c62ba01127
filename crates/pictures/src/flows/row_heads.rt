//! The rows of cells.

ghost use Rattle.std.specs.Prelude.{◌<◌, ◌^◌};
ghost use Rattle.text_out.specs.Out.{Writes};
ghost use Rattle.svg_texts.specs.Shapes.{shape_text};
ghost use Rattle.pictures.specs.Flows.Places as places;
ghost use Rattle.pictures.specs.Flows.Rows as spec;
ghost use Rattle.pictures.specs.Flows.Table as table;
ghost use Rattle.pictures.specs.Flows.Values as values;

use crate::flows::measure::y_at;
use crate::flows::shapes::write_value;
use crate::flows::values::value_at;
use crate::names::write_cell_letters;
use pram_trees::Layout;
use svg_texts::{Anchor, Colour, Face, close_text, open_label, write_line};
use text_out::{Out, WriteFault};

// A line along a row.
fn write_wire<W: Out>(out: &mut W, y: u128, wide: u128) -> Result<(), WriteFault>
    ensures written { Writes (W.Out.state out.old) (W.Out.state out.new) (shape_text (spec.wire y wide)) result }
{
    write_line(out, 198, y, wide.saturating_sub(16), y, Colour::Grey)
}

// A cell's name.
fn write_row_name<W: Out>(
    out: &mut W,
    layout: &Layout,
    y: u128,
    cell: u32,
) -> Result<(), WriteFault>
    ensures written { Writes (W.Out.state out.old) (W.Out.state out.new) (shape_text (spec.row_name layout.now y cell)) result }
{
    open_label(out, 12, y, Anchor::Start, Face::Plain)?;
    write_cell_letters(out, layout, cell as usize)?;
    close_text(out)
}

// And its value before.
fn write_row_words<W: Out>(
    out: &mut W,
    layout: &Layout,
    y: u128,
    cell: u32,
    value: &i64,
) -> Result<(), WriteFault>
    ensures written { Writes (W.Out.state out.old) (W.Out.state out.new)
        (shape_text (spec.row_words layout.now y cell value.now)) result }
{
    write_row_name(out, layout, y, cell)?;
    write_value(out, 192, y, Anchor::End, value)
}

fn write_row_head<W: Out>(
    out: &mut W,
    layout: &Layout,
    wide: u128,
    y: u128,
    cell: u32,
    value: &i64,
) -> Result<(), WriteFault>
    requires near { y < 2 ^ 100 }
    ensures written { Writes (W.Out.state out.old) (W.Out.state out.new)
        (shape_text (spec.row_head layout.now wide y cell value.now)) result }
{
    write_wire(out, y, wide)?;
    write_row_words(out, layout, y + 4, cell, value)
}

// That of a cell in some row, by the values of the first cells.
fn write_row<W: Out>(
    out: &mut W,
    layout: &Layout,
    wide: u128,
    before: &[i64],
    row: usize,
    cell: u32,
) -> Result<(), WriteFault>
    ensures written { Writes (W.Out.state out.old) (W.Out.state out.new) (shape_text (spec.row_head layout.now wide (places.y_at row) cell
        (values.value_at before.now cell))) result }
{
    let value = value_at(before, cell as usize);
    write_row_head(out, layout, wide, y_at(row), cell, &value)
}

/// Writes the rows.
pub(crate) fn write_row_heads<W: Out>(
    out: &mut W,
    layout: &Layout,
    wide: u128,
    before: &[i64],
    rows: &[u32],
) -> Result<(), WriteFault>
    ensures written { Writes (W.Out.state out.old) (W.Out.state out.new)
        (shape_text (table.row_heads layout.now wide (values.value_at before.now) 0 rows.now)) result }
{
    let mut row = 0usize;
    for cell in rows {
        write_row(out, layout, wide, before, row, *cell)?;
        row += 1;
    }
    Ok(())
}
