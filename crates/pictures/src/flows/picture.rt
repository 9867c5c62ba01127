//! All of a picture.

ghost use Rattle.std.specs.Prelude.{◌++◌, codes, map, take};
ghost use Rattle.text_out.specs.Out.{Writes};
ghost use Rattle.svg_texts.specs.Shapes.{picture_text, shape_text};
ghost use Rattle.pictures.specs.Flows.Picture as spec;
ghost use Rattle.pictures.specs.Flows.Table as table;
ghost use Rattle.pictures.specs.Flows.Drawing.{column_is, drawing_is};
ghost use Rattle.pictures.specs.Flows.Values as values;

use crate::flows::column::Column;
use crate::flows::columns::write_columns;
use crate::flows::drawing::Drawing;
use crate::flows::head::write_head;
use crate::flows::measure::{picture_height, picture_width};
use crate::flows::row_heads::write_row_heads;
use crate::flows::rows::{drawn_rows, rows_and_next};
use crate::flows::spans::CellSpan;
use pram_trees::Layout;
use svg_texts::{close_picture, open_picture};
use text_out::{Out, WriteFault};

// The rows and the columns.
fn write_table<W: Out>(
    out: &mut W,
    layout: &Layout,
    text: &[u8],
    wide: u128,
    before: &[i64],
    columns: &[Column],
    rows: &[u32],
) -> Result<(), WriteFault>
    ensures written { Writes (W.Out.state out.old) (W.Out.state out.new)
        (shape_text (table.row_heads layout.now wide (values.value_at before.now) 0 rows.now)
        ++ shape_text (table.columns layout.now text.now rows.now 1 (map column_is columns.now))) result }
{
    write_row_heads(out, layout, wide, before, rows)?;
    write_columns(out, layout, text, rows, columns)
}

fn write_counts<W: Out>(
    out: &mut W,
    layout: &Layout,
    only: &[CellSpan],
    drawing: &Drawing,
    found: &[u32],
) -> Result<(), WriteFault>
    ensures written { Writes (W.Out.state out.old) (W.Out.state out.new)
        (shape_text (spec.counts layout.now only.now (drawing_is drawing.now) found.now)) result }
{
    write_head(
        out,
        layout,
        only,
        drawing.count,
        drawing.from,
        drawing.to,
        drawing.columns.len(),
        drawing.touching,
        drawn_rows(found).len(),
        found.len(),
    )
}

fn write_drawn<W: Out>(
    out: &mut W,
    layout: &Layout,
    text: &[u8],
    drawing: &Drawing,
    found: &[u32],
) -> Result<(), WriteFault>
    ensures written { Writes (W.Out.state out.old) (W.Out.state out.new)
        (shape_text (table.table layout.now text.now (drawing_is drawing.now) (take 64 found.now))) result }
{
    let columns = drawing.columns.as_slice();
    let wide = picture_width(columns.len());
    let rows = drawn_rows(found);
    write_table(out, layout, text, wide, &drawing.before, columns, rows)
}

fn write_shape<W: Out>(
    out: &mut W,
    layout: &Layout,
    text: &[u8],
    only: &[CellSpan],
    drawing: &Drawing,
    found: &[u32],
) -> Result<(), WriteFault>
    ensures written { Writes (W.Out.state out.old) (W.Out.state out.new)
        (shape_text (spec.counts layout.now only.now (drawing_is drawing.now) found.now)
        ++ shape_text (spec.drawn_shape layout.now text.now (drawing_is drawing.now) (take 64 found.now))) result }
{
    write_counts(out, layout, only, drawing, found)?;
    write_drawn(out, layout, text, drawing, found)
}

// Its title and its size.
fn write_front<W: Out>(out: &mut W, drawing: &Drawing, found: &[u32]) -> Result<(), WriteFault>
    ensures written { Writes (W.Out.state out.old) (W.Out.state out.new)
        (spec.front (drawing_is drawing.now) found.now) result }
{
    let wide = picture_width(drawing.columns.len());
    let tall = picture_height(drawn_rows(found).len());
    open_picture(out, b"The flow of data through shared memory", wide, tall)
}

// A picture of these rows, one more of which may have been found.
fn write_found<W: Out>(
    out: &mut W,
    layout: &Layout,
    text: &[u8],
    only: &[CellSpan],
    drawing: &Drawing,
    found: &[u32],
) -> Result<(), WriteFault>
    ensures written { Writes (W.Out.state out.old) (W.Out.state out.new)
        (picture_text (spec.picture_of layout.now text.now only.now (drawing_is drawing.now) found.now)) result }
{
    write_front(out, drawing, found)?;
    write_shape(out, layout, text, only, drawing, found)?;
    close_picture(out)
}

/// Writes a picture of what passes through shared memory in a run, as SVG 1.1, of the statements that are drawn (`Flow::finish`): a row for
/// each cell that they touch, with its value before, and a column for each, with its number from 1, its line, and what stands there in the
/// text. In a column the cells that were written have a box with their new value, and from each cell that the writer read a line comes to
/// it; a cell that was read alone has a ring. A line for subscripts alone is dashed. A fault has a heavy frame, and below the rows it is
/// said what was wrong and who met. `text` is what was read as a program, where the entries stand. Where `only` has the cells of some
/// declarations, no others have a row, and the picture says so. Of more than 64 cells the first are drawn, and the picture says so, as of
/// statements that have no room. `WriteFault` (E17) says that the writer failed; what it took is a beginning of the picture.
pub fn write_flow<W: Out>(
    out: &mut W,
    layout: &Layout,
    text: &[u8],
    only: &[CellSpan],
    drawing: &Drawing,
) -> Result<(), WriteFault>
    // Exactly the defined picture of this drawing is written, of the chosen declarations, or a beginning of it and then
    // a failure.
    ensures written { Writes (W.Out.state out.old) (W.Out.state out.new)
        (picture_text (spec.picture layout.now text.now only.now (drawing_is drawing.now))) result }
{
    let found = rows_and_next(only, &drawing.columns);
    write_found(out, layout, text, only, drawing, found.as_slice())
}
