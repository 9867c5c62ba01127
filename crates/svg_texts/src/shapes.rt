//! Forms, lines through points, and shapes with a title.

ghost use Rattle.std.specs.Prelude.{◌≡◌, ◌++◌, Some, codes};
ghost use Rattle.text_out.specs.Out.{Writes};
ghost use Rattle.svg_texts.specs.Shapes as spec;
ghost use Rattle.svg_texts.specs.declared.form.Form.TheVariants as form;

use crate::{Colour, Fill, Form, Paint, Stroke, Weight};
use itoa::Buffer;
use text_out::{Out, WriteFault};

fn colour_text(colour: Colour) -> &'static [u8]
    ensures { result.now ≡ spec.colour_text colour }
{
    match colour {
        Colour::Black => b"#000000",
        Colour::White => b"#ffffff",
        Colour::Blue => b"#0072b2",
        Colour::Orange => b"#e69f00",
        Colour::Brown => b"#b06000",
        Colour::Pale => b"#f2f2f2",
        Colour::Light => b"#e0e0e0",
        Colour::Silver => b"#c0c0c0",
        Colour::Grey => b"#b0b0b0",
    }
}

fn fill_text(fill: Fill) -> &'static [u8]
    ensures { result.now ≡ spec.fill_text fill }
{
    match fill {
        Fill::Hollow => b"none",
        Fill::Plain(colour) => colour_text(colour),
        Fill::Striped => b"url(#stripes)",
    }
}

fn weight_text(weight: Weight) -> &'static [u8]
    ensures { result.now ≡ spec.weight_text weight }
{
    match weight {
        Weight::Thin => b"1",
        Weight::Firm => b"1.5",
        Weight::Heavy => b"3",
    }
}

fn dashes_text(dashed: bool) -> &'static [u8]
    ensures { result.now ≡ spec.dashes_text dashed }
{
    if dashed {
        b" stroke-dasharray='6 4'"
    } else {
        b""
    }
}

// A text is black where nothing else is said.
pub(crate) fn write_ink<W: Out>(out: &mut W, ink: &Option<Colour>) -> Result<(), WriteFault>
    ensures written { Writes (W.Out.state out.old) (W.Out.state out.new) (spec.ink_text ink.now) result }
{
    match ink {
        None => Ok(()),
        Some(colour) => out.write_parts(&[b" fill='", colour_text(*colour), b"'"]),
    }
}

fn write_line_stroke<W: Out>(out: &mut W, stroke: &Stroke) -> Result<(), WriteFault>
    ensures written { Writes (W.Out.state out.old) (W.Out.state out.new) (spec.stroke_text (Some stroke.now)) result }
{
    out.write_parts(&[
        b" stroke='",
        colour_text(stroke.colour),
        b"' stroke-width='",
        weight_text(stroke.weight),
        b"'",
        dashes_text(stroke.dashed),
    ])
}

fn write_stroke<W: Out>(out: &mut W, stroke: &Option<Stroke>) -> Result<(), WriteFault>
    ensures written { Writes (W.Out.state out.old) (W.Out.state out.new) (spec.stroke_text stroke.now) result }
{
    match stroke {
        None => Ok(()),
        Some(stroke) => write_line_stroke(out, stroke),
    }
}

fn write_fill<W: Out>(out: &mut W, fill: Fill) -> Result<(), WriteFault>
    ensures written { Writes (W.Out.state out.old) (W.Out.state out.new) (spec.filled_text fill) result }
{
    out.write_parts(&[b" fill='", fill_text(fill), b"'"])
}

fn write_paint<W: Out>(out: &mut W, paint: &Paint) -> Result<(), WriteFault>
    ensures written { Writes (W.Out.state out.old) (W.Out.state out.new) (spec.paint_text paint.now) result }
{
    write_fill(out, paint.fill)?;
    write_stroke(out, &paint.stroke)
}

fn write_rectangle<W: Out>(
    out: &mut W,
    left: u128,
    top: u128,
    wide: u128,
    tall: u128,
) -> Result<(), WriteFault>
    ensures written { Writes (W.Out.state out.old) (W.Out.state out.new) (spec.form_text (form.Rectangle left top wide tall)) result }
{
    let mut first = Buffer::new();
    let mut second = Buffer::new();
    let mut third = Buffer::new();
    let mut fourth = Buffer::new();
    out.write_parts(&[
        b"<rect x='",
        first.format(left).as_bytes(),
        b"' y='",
        second.format(top).as_bytes(),
        b"' width='",
        third.format(wide).as_bytes(),
        b"' height='",
        fourth.format(tall).as_bytes(),
        b"'",
    ])
}

fn write_circle<W: Out>(out: &mut W, x: u128, y: u128) -> Result<(), WriteFault>
    ensures written { Writes (W.Out.state out.old) (W.Out.state out.new) (spec.form_text (form.Circle x y)) result }
{
    let mut across = Buffer::new();
    let mut down = Buffer::new();
    out.write_parts(&[
        b"<circle cx='",
        across.format(x).as_bytes(),
        b"' cy='",
        down.format(y).as_bytes(),
        b"' r='4'",
    ])
}

fn write_line<W: Out>(
    out: &mut W,
    x: u128,
    y: u128,
    to_x: u128,
    to_y: u128,
) -> Result<(), WriteFault>
    ensures written { Writes (W.Out.state out.old) (W.Out.state out.new) (spec.form_text (form.Line x y to_x to_y)) result }
{
    let mut first = Buffer::new();
    let mut second = Buffer::new();
    let mut third = Buffer::new();
    let mut fourth = Buffer::new();
    out.write_parts(&[
        b"<path d='M",
        first.format(x).as_bytes(),
        b" ",
        second.format(y).as_bytes(),
        b"L",
        third.format(to_x).as_bytes(),
        b" ",
        fourth.format(to_y).as_bytes(),
        b"'",
    ])
}

fn write_place<W: Out>(out: &mut W, form: &Form) -> Result<(), WriteFault>
    ensures written { Writes (W.Out.state out.old) (W.Out.state out.new) (spec.form_text form.now) result }
{
    match form {
        Form::Rectangle {
            left,
            top,
            wide,
            tall,
        } => write_rectangle(out, *left, *top, *wide, *tall),
        Form::Circle { x, y } => write_circle(out, *x, *y),
        Form::Line { x, y, to_x, to_y } => write_line(out, *x, *y, *to_x, *to_y),
    }
}

/// Writes a form as it is painted. The error is that the writer failed (E17), here as below.
pub fn write_form<W: Out>(out: &mut W, form: &Form, paint: &Paint) -> Result<(), WriteFault>
    // Exactly the text of the form as it is painted is written, or a beginning and then a failure.
    ensures written { Writes (W.Out.state out.old) (W.Out.state out.new) (spec.shape_text (spec.Drawn form.now paint.now)) result }
{
    write_place(out, form)?;
    write_paint(out, paint)?;
    out.write_all(b"/>\n")
}

/// Begins a line through points, which are written next.
pub fn open_points<W: Out>(out: &mut W) -> Result<(), WriteFault>
    // Exactly the beginning of a line through points is written, or a beginning of it and then a failure.
    ensures written { Writes (W.Out.state out.old) (W.Out.state out.new) (codes "<polyline fill='none' stroke='#000000' points='") result }
{
    out.write_all(b"<polyline fill='none' stroke='#000000' points='")
}

/// Writes a point of a line.
pub fn write_point<W: Out>(out: &mut W, x: u128, y: u128) -> Result<(), WriteFault>
    // Exactly the point's text is written, or a beginning and then a failure.
    ensures written { Writes (W.Out.state out.old) (W.Out.state out.new) (spec.points_text (spec.At x y)) result }
{
    let mut across = Buffer::new();
    let mut down = Buffer::new();
    out.write_parts(&[
        across.format(x).as_bytes(),
        b",",
        down.format(y).as_bytes(),
        b" ",
    ])
}

/// Ends a line through points.
pub fn close_points<W: Out>(out: &mut W) -> Result<(), WriteFault>
    // Exactly the end of a line through points is written, or a beginning of it and then a failure.
    ensures written { Writes (W.Out.state out.old) (W.Out.state out.new) (codes "'/>\n") result }
{
    out.write_all(b"'/>\n")
}

/// Begins shapes with a title: its words are written next.
pub fn open_titled<W: Out>(out: &mut W) -> Result<(), WriteFault>
    // Exactly the beginning of shapes with a title is written, or a beginning of it and then a failure.
    ensures written { Writes (W.Out.state out.old) (W.Out.state out.new) (codes "<g><title>") result }
{
    out.write_all(b"<g><title>")
}

/// Ends the title: the shapes are written next.
pub fn write_title_end<W: Out>(out: &mut W) -> Result<(), WriteFault>
    // Exactly the end of a title is written, or a beginning of it and then a failure.
    ensures written { Writes (W.Out.state out.old) (W.Out.state out.new) (codes "</title>\n") result }
{
    out.write_all(b"</title>\n")
}

/// Ends shapes with a title.
pub fn close_titled<W: Out>(out: &mut W) -> Result<(), WriteFault>
    // Exactly the end of shapes with a title is written, or a beginning of it and then a failure.
    ensures written { Writes (W.Out.state out.old) (W.Out.state out.new) (codes "</g>\n") result }
{
    out.write_all(b"</g>\n")
}
