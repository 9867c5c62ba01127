//! Texts of pictures.

ghost use Rattle.std.specs.Prelude.{◌≡◌, true, false, codes};
ghost use Rattle.text_out.specs.Out.{Writes};
ghost use Rattle.svg_texts.specs.Shapes as spec;

use crate::shapes::write_ink;
use crate::{Anchor, Face, Lettering, write_letters};
use itoa::Buffer;
use text_out::{Out, WriteFault};

fn anchor_text(anchor: Anchor) -> &'static [u8]
    ensures { result.now ≡ spec.anchor_text anchor }
{
    match anchor {
        Anchor::Start => b"",
        Anchor::Middle => b" text-anchor='middle'",
        Anchor::End => b" text-anchor='end'",
    }
}

fn face_text(face: Face) -> &'static [u8]
    ensures { result.now ≡ spec.face_text face }
{
    match face {
        Face::Plain => b"",
        Face::Bold => b" font-weight='bold'",
        Face::Small => b" font-size='10'",
        Face::Tiny => b" font-size='6'",
        Face::Code => b" font-family='monospace' font-size='11'",
    }
}

fn write_level<W: Out>(out: &mut W, x: u128, y: u128) -> Result<(), WriteFault>
    ensures written { Writes (W.Out.state out.old) (W.Out.state out.new) (spec.place_text false x y) result }
{
    let mut across = Buffer::new();
    let mut down = Buffer::new();
    out.write_parts(&[
        b"<text x='",
        across.format(x).as_bytes(),
        b"' y='",
        down.format(y).as_bytes(),
        b"'",
    ])
}

fn write_upwards<W: Out>(out: &mut W, x: u128, y: u128) -> Result<(), WriteFault>
    ensures written { Writes (W.Out.state out.old) (W.Out.state out.new) (spec.place_text true x y) result }
{
    let mut across = Buffer::new();
    let mut down = Buffer::new();
    out.write_parts(&[
        b"<text transform='translate(",
        across.format(x).as_bytes(),
        b" ",
        down.format(y).as_bytes(),
        b")rotate(-90)'",
    ])
}

fn write_place<W: Out>(out: &mut W, upwards: bool, x: u128, y: u128) -> Result<(), WriteFault>
    ensures written { Writes (W.Out.state out.old) (W.Out.state out.new) (spec.place_text upwards x y) result }
{
    if upwards {
        write_upwards(out, x, y)
    } else {
        write_level(out, x, y)
    }
}

/// Begins a text at a point: its words are written next. The error is that the writer failed (E17), here as below.
pub fn open_text<W: Out>(
    out: &mut W,
    x: u128,
    y: u128,
    lettering: &Lettering,
) -> Result<(), WriteFault>
    // Exactly the beginning of a text at that point is written, or a beginning of it and then a failure.
    ensures written { Writes (W.Out.state out.old) (W.Out.state out.new) (spec.text_front x y lettering.now) result }
{
    write_place(out, lettering.upwards, x, y)?;
    out.write_all(anchor_text(lettering.anchor))?;
    out.write_all(face_text(lettering.face))?;
    write_ink(out, &lettering.ink)?;
    out.write_all(b">")
}

/// Ends a text.
pub fn close_text<W: Out>(out: &mut W) -> Result<(), WriteFault>
    // Exactly the end of a text is written, or a beginning of it and then a failure.
    ensures written { Writes (W.Out.state out.old) (W.Out.state out.new) (codes "</text>\n") result }
{
    out.write_all(b"</text>\n")
}

/// Writes a text of these letters at a point.
pub fn write_text<W: Out>(
    out: &mut W,
    x: u128,
    y: u128,
    lettering: &Lettering,
    words: &[u8],
) -> Result<(), WriteFault>
    // Exactly the text of these letters at that point is written, or a beginning and then a failure.
    ensures written { Writes (W.Out.state out.old) (W.Out.state out.new)
        (spec.shape_text (spec.Text x y lettering.now (spec.Letters words.now))) result }
{
    open_text(out, x, y, lettering)?;
    write_letters(out, words)?;
    close_text(out)
}
