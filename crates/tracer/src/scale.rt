//! The axes of a picture, and the marks of their scale.

ghost use Rattle.std.specs.Prelude.{◌≡◌, ◌≤◌, ◌<◌, ◌^◌};
ghost use Rattle.text_out.specs.Out.{Writes};
ghost use Rattle.svg_texts.specs.Shapes.{shape_text};
ghost use Rattle.tracer.specs.Picture as spec;

use crate::bars::{AXIS, bar_height};
use svg_texts::{Anchor, Colour, Face, write_label, write_line, write_number};
use text_out::{Out, WriteFault};

// A mark of the scale, and its number.
fn write_tick<W: Out>(out: &mut W, y: u128, number: u64) -> Result<(), WriteFault>
    requires near { y < 2 ^ 100 }
    ensures written { Writes (W.Out.state out.old) (W.Out.state out.new) (shape_text (spec.tick y number)) result }
{
    write_line(out, 163, y, 168, y, Colour::Black)?;
    write_number(out, 158, y + 4, Anchor::End, Face::Plain, number as u128)
}

// Of so many words sent, and of so many received.
fn write_two_ticks<W: Out>(out: &mut W, most: u64, number: u64) -> Result<(), WriteFault>
    requires within { number ≤ most }
    ensures written { Writes (W.Out.state out.old) (W.Out.state out.new) (shape_text (spec.two_ticks most number)) result }
{
    let height = bar_height(most, number);
    write_tick(out, AXIS - height, number)?;
    write_tick(out, AXIS + height, number)
}

fn write_ticks_of<W: Out>(out: &mut W, most: u64, number: u64) -> Result<(), WriteFault>
    requires within { number ≤ most }
    ensures written { Writes (W.Out.state out.old) (W.Out.state out.new) (shape_text (spec.ticks_of most number)) result }
{
    if number == 0 {
        Ok(())
    } else {
        write_two_ticks(out, most, number)
    }
}

// Of the half and of the most.
fn write_ticks<W: Out>(out: &mut W, most: u64) -> Result<(), WriteFault>
    ensures written { Writes (W.Out.state out.old) (W.Out.state out.new) (shape_text (spec.ticks most)) result }
{
    write_ticks_of(out, most, most / 2)?;
    write_ticks_of(out, most, most)
}

// The axes: that of no words, its mark, and that of the scale.
fn write_axes<W: Out>(out: &mut W, width: u128) -> Result<(), WriteFault>
    ensures written { Writes (W.Out.state out.old) (W.Out.state out.new) (shape_text (spec.axes width)) result }
{
    write_line(out, 168, 214, width, 214, Colour::Black)?;
    write_line(out, 163, 214, 168, 214, Colour::Black)?;
    write_line(out, 168, 114, 168, 314, Colour::Black)
}

// A title on the left.
fn write_aside<W: Out>(out: &mut W, y: u128, words: &[u8]) -> Result<(), WriteFault>
    ensures written { Writes (W.Out.state out.old) (W.Out.state out.new) (shape_text (spec.aside y words.now)) result }
{
    write_label(out, 158, y, Anchor::End, Face::Plain, words)
}

fn write_titles<W: Out>(out: &mut W) -> Result<(), WriteFault>
    ensures written { Writes (W.Out.state out.old) (W.Out.state out.new) (shape_text spec.titles) result }
{
    write_aside(out, 64, b"exchange")?;
    write_aside(out, 143, b"words sent")?;
    write_aside(out, 218, b"0")?;
    write_aside(out, 293, b"words received")?;
    write_aside(out, 327, b"worker")
}

/// Writes the axes of a picture of that width, and the scale of bars that are for so many words.
pub(crate) fn write_scale<W: Out>(out: &mut W, width: u128, most: u64) -> Result<(), WriteFault>
    ensures written { Writes (W.Out.state out.old) (W.Out.state out.new) (shape_text (spec.scale width most)) result }
{
    write_axes(out, width)?;
    write_titles(out)?;
    write_ticks(out, most)
}
