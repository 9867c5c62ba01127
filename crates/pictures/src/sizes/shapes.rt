//! The shapes of marks.

ghost use Rattle.std.specs.Prelude.{◌-◌};
ghost use Rattle.text_out.specs.Out.{Writes};
ghost use Rattle.svg_texts.specs.declared.colour.Colour.TheVariants.{White};
ghost use Rattle.svg_texts.specs.declared.form.Form.TheVariants as form;
ghost use Rattle.svg_texts.specs.Plain.{outlined};
ghost use Rattle.svg_texts.specs.Shapes.{Drawn, shape_text};
ghost use Rattle.pictures.specs.Sizes.Marks as spec;

use crate::sizes::frame::Frame;
use crate::sizes::measure::{mark_y, x_of};
use svg_texts::{Colour, Form, write_line, write_outlined};
use sweeps::{Ending, SizeRow};
use text_out::{Out, WriteFault};

// Full where a run ended, hollow where it goes on.
fn write_circle<W: Out>(x: u64, y: u64, colour: Colour, out: &mut W) -> Result<(), WriteFault>
    ensures written { Writes (W.Out.state out.old) (W.Out.state out.new) (shape_text (Drawn (form.Circle x y) (outlined colour))) result }
{
    let form = Form::Circle {
        x: x as u128,
        y: y as u128,
    };
    write_outlined(out, &form, colour)
}

// Where it faulted.
fn write_square<W: Out>(x: u64, y: u64, out: &mut W) -> Result<(), WriteFault>
    ensures written { Writes (W.Out.state out.old) (W.Out.state out.new)
        (shape_text (Drawn (form.Rectangle (x - 4) (y - 4) 8 8) (outlined White))) result }
{
    let (left, top) = (x.saturating_sub(4), y.saturating_sub(4));
    let form = Form::Rectangle {
        left: left as u128,
        top: top as u128,
        wide: 8,
        tall: 8,
    };
    write_outlined(out, &form, Colour::White)
}

// Where there was none.
fn write_cross<W: Out>(x: u64, y: u64, out: &mut W) -> Result<(), WriteFault>
    ensures written { Writes (W.Out.state out.old) (W.Out.state out.new) (shape_text (spec.cross x y)) result }
{
    let (left, top) = (x.saturating_sub(4) as u128, y.saturating_sub(4) as u128);
    let (right, foot) = (x as u128 + 4, y as u128 + 4);
    write_line(out, left, top, right, foot, Colour::Black)?;
    write_line(out, right, top, left, foot, Colour::Black)
}

fn write_shape<W: Out>(
    frame: Frame,
    x: u64,
    y: u64,
    ending: &Ending,
    out: &mut W,
) -> Result<(), WriteFault>
    ensures written { Writes (W.Out.state out.old) (W.Out.state out.new) (shape_text (spec.shape frame x y ending.now)) result }
{
    match ending {
        Ending::Ended(_) => write_circle(x, y, Colour::Black, out),
        Ending::GoesOn(_) => write_circle(x, y, Colour::White, out),
        Ending::Faulted(_, _) => write_square(x, y, out),
        Ending::Refused(_) => write_cross(x, u64::from(frame.base), out),
    }
}

/// Writes the shape of a row's mark.
pub(crate) fn write_row_shape<W: Out>(
    frame: Frame,
    row: &SizeRow,
    out: &mut W,
) -> Result<(), WriteFault>
    ensures written { Writes (W.Out.state out.old) (W.Out.state out.new) (shape_text (spec.row_shape frame row.now)) result }
{
    let y = mark_y(frame, &row.ending);
    write_shape(frame, x_of(frame, row.size), y, &row.ending, out)
}
