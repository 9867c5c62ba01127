//! Numbers of a picture.

ghost use Rattle.text_out.specs.Out.{Writes};
ghost use Rattle.svg_texts.specs.Shapes.{shape_text};
ghost use Rattle.tracer.specs.Picture as spec;

use svg_texts::{Anchor, Face, close_text, open_label, write_numbered};
use text_out::{Out, WriteFault};

/// Writes a number behind a word, as a text of the picture.
pub(crate) fn write_named_number<W: Out>(
    out: &mut W,
    x: u128,
    y: u128,
    word: &[u8],
    number: u64,
) -> Result<(), WriteFault>
    ensures written { Writes (W.Out.state out.old) (W.Out.state out.new) (shape_text (spec.named_number x y word.now number)) result }
{
    open_label(out, x, y, Anchor::Start, Face::Plain)?;
    write_numbered(out, word, number as u128)?;
    close_text(out)
}
