//! Bytes as a text of SVG.

ghost use Rattle.std.specs.Prelude.{◌≡◌};
ghost use Rattle.text_out.specs.Out.{Writes};
ghost use Rattle.svg_texts.specs.Letters as spec;

use text_out::{Out, WriteFault};

fn write_letter<W: Out>(out: &mut W, byte: u8) -> Result<(), WriteFault>
    ensures written { Writes (W.Out.state out.old) (W.Out.state out.new) (spec.letter byte) result }
{
    if byte == b'&' {
        out.write_all(b"&amp;")
    } else if byte == b'<' {
        out.write_all(b"&lt;")
    } else if byte == b'>' {
        out.write_all(b"&gt;")
    } else if byte == b'\t' {
        out.write_all(b" ")
    } else if byte < 32 || byte > 126 {
        out.write_all(b"?")
    } else {
        out.write_all(&[byte])
    }
}

/// Writes bytes as a text of SVG: `&`, `<` and `>` as SVG has them, a tab as a blank, and any other byte that is no printed letter of ASCII
/// as a question mark. The error is that the writer failed (E17).
pub fn write_letters<W: Out>(out: &mut W, bytes: &[u8]) -> Result<(), WriteFault>
    // Exactly the bytes' text of SVG is written, or a beginning and then a failure: `&`, `<` and `>` escaped, a tab as
    // a blank, other unprintable bytes as `?`.
    ensures written { Writes (W.Out.state out.old) (W.Out.state out.new) (spec.letters bytes.now) result }
{
    for byte in bytes {
        write_letter(out, *byte)?;
    }
    Ok(())
}
