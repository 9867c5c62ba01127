//! The plainest shapes.

ghost use Rattle.std.specs.Prelude.{decimal};
ghost use Rattle.text_out.specs.Out.{Writes};
ghost use Rattle.svg_texts.specs.Plain as spec;
ghost use Rattle.svg_texts.specs.Shapes.{Drawn, shape_text, text_front, words_text};

use crate::{
    Anchor, Colour, Face, Fill, Form, Lettering, Paint, Stroke, Weight, close_text, open_text,
    write_form, write_letters, write_text,
};
use itoa::Buffer;
use text_out::{Out, WriteFault};

/// Writes a number. The error is that the writer failed (E17), here as below.
pub fn write_decimal<W: Out>(out: &mut W, number: u128) -> Result<(), WriteFault>
    // Exactly the number's digits are written, or a beginning and then a failure.
    ensures written { Writes (W.Out.state out.old) (W.Out.state out.new) (decimal number) result }
{
    let mut digits = Buffer::new();
    out.write_all(digits.format(number).as_bytes())
}

/// Writes a number behind a word.
pub fn write_numbered<W: Out>(out: &mut W, word: &[u8], number: u128) -> Result<(), WriteFault>
    // Exactly the word's letters and the number are written, or a beginning and then a failure.
    ensures written { Writes (W.Out.state out.old) (W.Out.state out.new) (words_text (spec.numbered word.now number)) result }
{
    write_letters(out, word)?;
    write_decimal(out, number)
}

/// Writes a form of one colour, with no line around it.
pub fn write_filled<W: Out>(out: &mut W, form: &Form, colour: Colour) -> Result<(), WriteFault>
    // Exactly the text of the form in that colour is written, or a beginning and then a failure.
    ensures written { Writes (W.Out.state out.old) (W.Out.state out.new) (shape_text (Drawn form.now (spec.filled colour))) result }
{
    let paint = Paint {
        fill: Fill::Plain(colour),
        stroke: None,
    };
    write_form(out, form, &paint)
}

/// Writes a form of one colour, within a black line.
pub fn write_outlined<W: Out>(out: &mut W, form: &Form, colour: Colour) -> Result<(), WriteFault>
    // Exactly the text of the form in that colour, within a black line, is written, or a beginning and then a failure.
    ensures written { Writes (W.Out.state out.old) (W.Out.state out.new) (shape_text (Drawn form.now (spec.outlined colour))) result }
{
    let paint = Paint {
        fill: Fill::Plain(colour),
        stroke: Some(Stroke {
            colour: Colour::Black,
            weight: Weight::Thin,
            dashed: false,
        }),
    };
    write_form(out, form, &paint)
}

/// Writes a line of a pixel, from one point to another.
pub fn write_line<W: Out>(
    out: &mut W,
    x: u128,
    y: u128,
    to_x: u128,
    to_y: u128,
    colour: Colour,
) -> Result<(), WriteFault>
    // Exactly the text of the line is written, or a beginning and then a failure.
    ensures written { Writes (W.Out.state out.old) (W.Out.state out.new) (shape_text (spec.line x y to_x to_y colour)) result }
{
    let paint = Paint {
        fill: Fill::Hollow,
        stroke: Some(Stroke {
            colour,
            weight: Weight::Thin,
            dashed: false,
        }),
    };
    write_form(out, &Form::Line { x, y, to_x, to_y }, &paint)
}

/// Writes letters at a point, black and level.
pub fn write_label<W: Out>(
    out: &mut W,
    x: u128,
    y: u128,
    anchor: Anchor,
    face: Face,
    words: &[u8],
) -> Result<(), WriteFault>
    // Exactly the text of these letters at that point is written, or a beginning and then a failure.
    ensures written { Writes (W.Out.state out.old) (W.Out.state out.new) (shape_text (spec.label x y anchor face words.now)) result }
{
    let lettering = Lettering {
        anchor,
        face,
        ink: None,
        upwards: false,
    };
    write_text(out, x, y, &lettering, words)
}

/// Begins a text at a point, black and level: its words are written next.
pub fn open_label<W: Out>(
    out: &mut W,
    x: u128,
    y: u128,
    anchor: Anchor,
    face: Face,
) -> Result<(), WriteFault>
    // Exactly the beginning of a text at that point is written, or a beginning of it and then a failure.
    ensures written { Writes (W.Out.state out.old) (W.Out.state out.new) (text_front x y (spec.lettered anchor face)) result }
{
    let lettering = Lettering {
        anchor,
        face,
        ink: None,
        upwards: false,
    };
    open_text(out, x, y, &lettering)
}

/// Writes a number at a point, black and level.
pub fn write_number<W: Out>(
    out: &mut W,
    x: u128,
    y: u128,
    anchor: Anchor,
    face: Face,
    number: u128,
) -> Result<(), WriteFault>
    // Exactly the text of the number at that point is written, or a beginning and then a failure.
    ensures written { Writes (W.Out.state out.old) (W.Out.state out.new) (shape_text (spec.number x y anchor face number)) result }
{
    open_label(out, x, y, anchor, face)?;
    write_decimal(out, number)?;
    close_text(out)
}
