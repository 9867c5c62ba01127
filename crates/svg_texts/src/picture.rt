//! The beginning and the end of a picture.

ghost use Rattle.std.specs.Prelude.{codes};
ghost use Rattle.text_out.specs.Out.{Writes};
ghost use Rattle.svg_texts.specs.Shapes as spec;

use crate::write_letters;
use itoa::Buffer;
use text_out::{Out, WriteFault};

fn write_size<W: Out>(out: &mut W, wide: u128, tall: u128) -> Result<(), WriteFault>
    ensures written { Writes (W.Out.state out.old) (W.Out.state out.new) (spec.size_text wide tall) result }
{
    let mut across = Buffer::new();
    let mut down = Buffer::new();
    let (width, height) = (across.format(wide).as_bytes(), down.format(tall).as_bytes());
    out.write_parts(&[
        b"<svg xmlns='http://www.w3.org/2000/svg' version='1.1' width='",
        width,
        b"' height='",
        height,
        b"' viewBox='0 0 ",
        width,
        b" ",
        height,
        b"' font-family='sans-serif' font-size='12' xml:space='preserve'>\n<title>",
    ])
}

fn write_ground<W: Out>(out: &mut W, wide: u128, tall: u128) -> Result<(), WriteFault>
    ensures written { Writes (W.Out.state out.old) (W.Out.state out.new) (spec.ground_text wide tall) result }
{
    let mut across = Buffer::new();
    let mut down = Buffer::new();
    out.write_parts(&[
        b"</title>\n<defs><pattern id='stripes' width='4' height='4' patternUnits='userSpaceOnUse'>",
        b"<rect width='4' height='4' fill='#ffffff'/><rect width='4' height='2' fill='#e69f00'/></pattern></defs>\n<rect width='",
        across.format(wide).as_bytes(),
        b"' height='",
        down.format(tall).as_bytes(),
        b"' fill='#ffffff'/>\n",
    ])
}

/// Begins a picture of that title and size, in pixels: its shapes are written next. The error is that the writer failed (E17), here as
/// below.
pub fn open_picture<W: Out>(
    out: &mut W,
    title: &[u8],
    wide: u128,
    tall: u128,
) -> Result<(), WriteFault>
    // Exactly the beginning of a picture of that title and size is written, or a beginning of it and then a failure.
    ensures written { Writes (W.Out.state out.old) (W.Out.state out.new)
        (spec.picture_front (spec.Letters title.now) wide tall) result }
{
    write_size(out, wide, tall)?;
    write_letters(out, title)?;
    write_ground(out, wide, tall)
}

/// Ends a picture.
pub fn close_picture<W: Out>(out: &mut W) -> Result<(), WriteFault>
    // Exactly the end of a picture is written, or a beginning of it and then a failure.
    ensures written { Writes (W.Out.state out.old) (W.Out.state out.new) (codes "</svg>\n") result }
{
    out.write_all(b"</svg>\n")
}
