//! Values, and values in boxes.

ghost use Rattle.std.specs.Prelude.{◌≡◌, ◌<◌, ◌^◌};
ghost use Rattle.std.specs.Fmt.{signed_decimal};
ghost use Rattle.text_out.specs.Out.{Writes};
ghost use Rattle.svg_texts.specs.Shapes.{shape_text};
ghost use Rattle.pictures.specs.Flows.MarkShapes as spec;

use crate::flows::measure::{decimal, value_width};
use itoa::Buffer;
use svg_texts::{Anchor, Colour, Face, Form, close_text, open_label, write_outlined};
use text_out::{Out, WriteFault};

// A long value is written small.
fn value_face(value: &i64) -> Face
    ensures { result ≡ spec.value_face value.now }
{
    if value_width(value) > 76 {
        Face::Tiny
    } else {
        Face::Plain
    }
}

fn write_digits<W: Out>(out: &mut W, value: &i64) -> Result<(), WriteFault>
    ensures written { Writes (W.Out.state out.old) (W.Out.state out.new) (signed_decimal value.now) result }
{
    let mut digits = Buffer::new();
    out.write_all(decimal(&mut digits, value))
}

/// Writes a value.
pub(crate) fn write_value<W: Out>(
    out: &mut W,
    x: u128,
    y: u128,
    anchor: Anchor,
    value: &i64,
) -> Result<(), WriteFault>
    ensures written { Writes (W.Out.state out.old) (W.Out.state out.new) (shape_text (spec.value_shape x y anchor value.now)) result }
{
    open_label(out, x, y, anchor, value_face(value))?;
    write_digits(out, value)?;
    close_text(out)
}

fn write_outline<W: Out>(out: &mut W, x: u128, y: u128, wide: u128) -> Result<(), WriteFault>
    ensures written { Writes (W.Out.state out.old) (W.Out.state out.new) (shape_text (spec.outline x y wide)) result }
{
    let form = Form::Rectangle {
        left: x.saturating_sub(wide / 2),
        top: y.saturating_sub(9),
        wide,
        tall: 18,
    };
    write_outlined(out, &form, Colour::White)
}

/// Writes a value in a box.
pub(crate) fn write_box<W: Out>(
    out: &mut W,
    x: u128,
    y: u128,
    wide: u128,
    value: &i64,
) -> Result<(), WriteFault>
    requires near { y < 2 ^ 100 }
    ensures written { Writes (W.Out.state out.old) (W.Out.state out.new) (shape_text (spec.box x y wide value.now)) result }
{
    write_outline(out, x, y, wide)?;
    write_value(out, x, y + 4, Anchor::Middle, value)
}
