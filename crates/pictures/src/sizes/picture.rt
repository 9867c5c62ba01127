//! All of a picture.

ghost use Rattle.text_out.specs.Out.{Writes};
ghost use Rattle.svg_texts.specs.Shapes.{picture_text, shape_text, words_text};
ghost use Rattle.pictures.specs.Sizes.Picture as spec;

use crate::sizes::measure::{drawn, frame_of};
use crate::sizes::panel::write_panel;
use svg_texts::{
    Anchor, Face, close_picture, close_text, open_label, open_picture, write_letters,
    write_numbered,
};
use sweeps::{Measure, SizeRow};
use text_out::{Out, WriteFault};

fn write_first_words<W: Out>(count: usize, out: &mut W) -> Result<(), WriteFault>
    ensures written { Writes (W.Out.state out.old) (W.Out.state out.new) (words_text (spec.first_words count)) result }
{
    write_numbered(out, b"64 of ", count as u128)?;
    write_letters(out, b" sizes")
}

fn write_first<W: Out>(count: usize, out: &mut W) -> Result<(), WriteFault>
    ensures written { Writes (W.Out.state out.old) (W.Out.state out.new) (shape_text (spec.first_label count)) result }
{
    open_label(out, 168, 20, Anchor::Start, Face::Plain)?;
    write_first_words(count, out)?;
    close_text(out)
}

// That not all sizes are drawn.
fn write_cut<W: Out>(count: usize, out: &mut W) -> Result<(), WriteFault>
    ensures written { Writes (W.Out.state out.old) (W.Out.state out.new) (shape_text (spec.cut count)) result }
{
    if count > 64 {
        write_first(count, out)
    } else {
        Ok(())
    }
}

// A panel with its axis there.
fn write_measured<W: Out>(
    name: &[u8],
    measure: Measure,
    base: u32,
    rows: &[SizeRow],
    out: &mut W,
) -> Result<(), WriteFault>
    ensures written { Writes (W.Out.state out.old) (W.Out.state out.new)
        (shape_text (spec.panel name.now (spec.frame_of measure base rows.now) rows.now)) result }
{
    write_panel(name, frame_of(measure, base, rows), rows, out)
}

// Time, and below it work.
fn write_panels<W: Out>(name: &[u8], rows: &[SizeRow], out: &mut W) -> Result<(), WriteFault>
    ensures written { Writes (W.Out.state out.old) (W.Out.state out.new) (shape_text (spec.panels name.now rows.now)) result }
{
    write_measured(name, Measure::Time, 220, rows, out)?;
    write_measured(name, Measure::Work, 450, rows, out)
}

// All of a picture of these rows of so many.
fn write_shape<W: Out>(
    name: &[u8],
    count: usize,
    rows: &[SizeRow],
    out: &mut W,
) -> Result<(), WriteFault>
    ensures written { Writes (W.Out.state out.old) (W.Out.state out.new) (shape_text (spec.shape_of name.now count rows.now)) result }
{
    write_cut(count, out)?;
    write_panels(name, rows, out)
}

// A picture of these rows of so many.
fn write_drawn<W: Out>(
    name: &[u8],
    count: usize,
    rows: &[SizeRow],
    out: &mut W,
) -> Result<(), WriteFault>
    ensures written { Writes (W.Out.state out.old) (W.Out.state out.new) (picture_text (spec.picture_of name.now count rows.now)) result }
{
    open_picture(out, b"What a program costs at several sizes", 760, 500)?;
    write_shape(name, count, rows, out)?;
    close_picture(out)
}

/// Writes a picture of what a program costs at several sizes, as SVG 1.1: its time against the size, and below it its work. From left to
/// right stand the sizes, each doubling as wide as the next, from below to above the numbers, from 0 to a round one. A run that ended has
/// a full circle, one that goes on a hollow one, one that faulted a hollow square, and a size with no run a cross on the axis; a line goes
/// through the circles in the order of the rows. A mark says its size and its number where it is pointed at. Numbers and sizes that would
/// touch the last one written are left out. Of more than 64 rows the first 64 are drawn, and the picture says so. In names, faults and
/// refusals a byte that is no printed letter of ASCII is a question mark. The error is that the writer failed (E17).
pub fn write_sweep_picture<W: Out>(
    name: &[u8],
    rows: &[SizeRow],
    out: &mut W,
) -> Result<(), WriteFault>
    // Exactly the defined picture of these rows is written, or a beginning of it and then a failure.
    ensures written { Writes (W.Out.state out.old) (W.Out.state out.new) (picture_text (spec.picture name.now rows.now)) result }
{
    write_drawn(name, rows.len(), drawn(rows), out)
}
