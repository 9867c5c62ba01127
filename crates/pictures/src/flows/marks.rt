//! The marks of a column.

ghost use Rattle.std.specs.Prelude.{◌≡◌, None, Some, if◌then◌else◌, map};
ghost use Rattle.text_out.specs.Out.{Writes};
ghost use Rattle.journal.specs.Entries.{act_is};
ghost use Rattle.pictures.specs.Flows.Drawing.{column_is};
ghost use Rattle.pictures.specs.Flows.Marks as spec;
ghost use Rattle.pictures.specs.Flows.MarkShapes as shapes;
ghost use Rattle.pictures.specs.Flows.MarkShapes.{each};
ghost use Rattle.svg_texts.specs.Shapes.{Empty, shape_text};

use crate::acts::acts_in;
use crate::flows::column::Column;
use crate::flows::links::{carries, value_in, values, writes};
use crate::flows::measure::{value_width, x_of, y_of};
use crate::flows::shapes::write_box;
use crate::looks::black;
use journal::Act;
use svg_texts::{Colour, Form, Weight, write_form, write_outlined};
use text_out::{Out, WriteFault};

// A cell that was written.
fn write_node<W: Out>(
    out: &mut W,
    rows: &[u32],
    column: usize,
    cell: u32,
    value: &i64,
) -> Result<(), WriteFault>
    ensures written { Writes (W.Out.state out.old) (W.Out.state out.new)
        (shape_text (shapes.node_shape rows.now record { cell = cell; column = column; value = value.now })) result }
{
    let wide = value_width(value).min(76);
    write_box(out, x_of(column), y_of(rows, cell), wide, value)
}

// With the value that it has behind the statement.
fn write_node_by<W: Out>(
    out: &mut W,
    rows: &[u32],
    column: usize,
    cell: u32,
    written: &[i64],
    acts: &[Act],
) -> Result<(), WriteFault>
    ensures written { Writes (W.Out.state out.old) (W.Out.state out.new)
        (shape_text (shapes.node_shape rows.now (spec.node column (spec.value_in (map act_is acts.now) written.now) cell))) result }
{
    let value = value_in(acts, written, cell);
    write_node(out, rows, column, cell, &value)
}

// A cell, where it was written by the statement of that number.
fn write_node_if<W: Out>(
    out: &mut W,
    rows: &[u32],
    column: usize,
    cell: u32,
    written: &[i64],
    acts: &[Act],
) -> Result<(), WriteFault>
    ensures written { Writes (W.Out.state out.old) (W.Out.state out.new)
        (shape_text (if spec.writes (map act_is acts.now) cell
        then shapes.node_shape rows.now (spec.node column (spec.value_in (map act_is acts.now) written.now) cell)
        else Empty)) result }
{
    if writes(acts, cell) {
        write_node_by(out, rows, column, cell, written, acts)
    } else {
        Ok(())
    }
}

fn write_nodes<W: Out>(
    out: &mut W,
    rows: &[u32],
    column: usize,
    written: &[i64],
    acts: &[Act],
) -> Result<(), WriteFault>
    ensures written { Writes (W.Out.state out.old) (W.Out.state out.new) (shape_text (each (shapes.node_shape rows.now)
        (spec.nodes rows.now column (spec.value_in (map act_is acts.now) written.now)
        (map act_is acts.now)))) result }
{
    for cell in rows {
        write_node_if(out, rows, column, *cell, written, acts)?;
    }
    Ok(())
}

// From a cell that a processor read to the one that it wrote.
fn write_arrow<W: Out>(
    out: &mut W,
    rows: &[u32],
    column: usize,
    to: u32,
    from: u32,
    dashed: bool,
) -> Result<(), WriteFault>
    ensures written { Writes (W.Out.state out.old) (W.Out.state out.new)
        (shape_text (shapes.arrow_shape rows.now (spec.arrow column to from dashed))) result }
{
    let x = x_of(column);
    let form = Form::Line {
        x: x.saturating_sub(60),
        y: y_of(rows, from),
        to_x: x,
        to_y: y_of(rows, to),
    };
    write_form(out, &form, &black(Weight::Firm, dashed))
}

// By what processors did.
fn write_arrow_by<W: Out>(
    out: &mut W,
    rows: &[u32],
    column: usize,
    aside: &[bool],
    acts: &[Act],
    to: u32,
    from: u32,
) -> Result<(), WriteFault>
    ensures written { Writes (W.Out.state out.old) (W.Out.state out.new)
        (shape_text (shapes.arrow_shape rows.now (spec.arrow_by column aside.now (map act_is acts.now) to from))) result }
{
    let dashed = !values(aside, acts, from, Some(to));
    write_arrow(out, rows, column, to, from, dashed)
}

fn write_arrow_if<W: Out>(
    out: &mut W,
    rows: &[u32],
    column: usize,
    aside: &[bool],
    to: u32,
    from: u32,
    acts: &[Act],
) -> Result<(), WriteFault>
    ensures written { Writes (W.Out.state out.old) (W.Out.state out.new)
        (shape_text (if spec.carries (map act_is acts.now) from (Some to)
        then shapes.arrow_shape rows.now (spec.arrow_by column aside.now (map act_is acts.now) to from) else Empty)) result }
{
    if carries(acts, from, Some(to)) {
        write_arrow_by(out, rows, column, aside, acts, to, from)
    } else {
        Ok(())
    }
}

fn write_arrows_to<W: Out>(
    out: &mut W,
    rows: &[u32],
    column: usize,
    aside: &[bool],
    acts: &[Act],
    to: u32,
) -> Result<(), WriteFault>
    ensures written { Writes (W.Out.state out.old) (W.Out.state out.new)
        (shape_text (each (shapes.arrow_shape rows.now) (spec.arrows_to rows.now column aside.now (map act_is acts.now) to))) result }
{
    for from in rows {
        write_arrow_if(out, rows, column, aside, to, *from, acts)?;
    }
    Ok(())
}

// The lines to a cell, where it was written.
fn write_arrows_if<W: Out>(
    out: &mut W,
    rows: &[u32],
    column: usize,
    aside: &[bool],
    acts: &[Act],
    to: u32,
) -> Result<(), WriteFault>
    ensures written { Writes (W.Out.state out.old) (W.Out.state out.new)
        (shape_text (if spec.writes (map act_is acts.now) to
        then each (shapes.arrow_shape rows.now) (spec.arrows_to rows.now column aside.now (map act_is acts.now) to) else Empty)) result }
{
    if writes(acts, to) {
        write_arrows_to(out, rows, column, aside, acts, to)
    } else {
        Ok(())
    }
}

fn write_arrows<W: Out>(
    out: &mut W,
    rows: &[u32],
    column: usize,
    aside: &[bool],
    acts: &[Act],
) -> Result<(), WriteFault>
    ensures written { Writes (W.Out.state out.old) (W.Out.state out.new)
        (shape_text (each (shapes.arrow_shape rows.now) (spec.arrows rows.now column aside.now (map act_is acts.now)))) result }
{
    for to in rows {
        write_arrows_if(out, rows, column, aside, acts, *to)?;
    }
    Ok(())
}

// A cell that was read.
fn write_ring<W: Out>(out: &mut W, rows: &[u32], column: usize, cell: u32) -> Result<(), WriteFault>
    ensures written { Writes (W.Out.state out.old) (W.Out.state out.new)
        (shape_text (shapes.reading_shape rows.now (spec.reading column cell))) result }
{
    let form = Form::Circle {
        x: x_of(column),
        y: y_of(rows, cell),
    };
    write_outlined(out, &form, Colour::White)
}

// A cell, where a processor read it that wrote none.
fn write_reading_if<W: Out>(
    out: &mut W,
    rows: &[u32],
    column: usize,
    cell: u32,
    acts: &[Act],
) -> Result<(), WriteFault>
    ensures written { Writes (W.Out.state out.old) (W.Out.state out.new)
        (shape_text (if spec.carries (map act_is acts.now) cell None
        then shapes.reading_shape rows.now (spec.reading column cell) else Empty)) result }
{
    if carries(acts, cell, None) {
        write_ring(out, rows, column, cell)
    } else {
        Ok(())
    }
}

fn write_readings<W: Out>(
    out: &mut W,
    rows: &[u32],
    column: usize,
    acts: &[Act],
) -> Result<(), WriteFault>
    ensures written { Writes (W.Out.state out.old) (W.Out.state out.new)
        (shape_text (each (shapes.reading_shape rows.now) (spec.readings rows.now column (map act_is acts.now)))) result }
{
    for cell in rows {
        write_reading_if(out, rows, column, *cell, acts)?;
    }
    Ok(())
}

fn write_acts<W: Out>(
    out: &mut W,
    rows: &[u32],
    column: usize,
    aside: &[bool],
    written: &[i64],
    acts: &[Act],
) -> Result<(), WriteFault>
    ensures written { Writes (W.Out.state out.old) (W.Out.state out.new) (shape_text (shapes.marks_of rows.now column aside.now
        (spec.value_in (map act_is acts.now) written.now) (map act_is acts.now))) result }
{
    write_arrows(out, rows, column, aside, acts)?;
    write_nodes(out, rows, column, written, acts)?;
    write_readings(out, rows, column, acts)
}

/// Writes the marks of a statement.
pub(crate) fn write_marks<W: Out>(
    out: &mut W,
    rows: &[u32],
    column: usize,
    drawn: &Column,
) -> Result<(), WriteFault>
    ensures written { Writes (W.Out.state out.old) (W.Out.state out.new)
        (shape_text (shapes.marks_shape rows.now column (column_is drawn.now))) result }
{
    let acts = acts_in(&drawn.entry);
    write_acts(out, rows, column, &drawn.aside, &drawn.written, acts)
}
