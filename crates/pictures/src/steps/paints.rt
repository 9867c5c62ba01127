//! How forms are painted, and how letters look.

ghost use Rattle.std.specs.Prelude.{◌≡◌};
ghost use Rattle.pictures.specs.Looks as looks;
ghost use Rattle.pictures.specs.Steps.Paints as spec;
ghost use Rattle.svg_texts.specs.Shapes.{shape_text, text_front};
ghost use Rattle.text_out.specs.Out.{Writes};

use crate::looks::UPWARDS;
use svg_texts::{Anchor, Colour, Face, Lettering, open_label, open_text, write_label, write_text};
use text_out::{Out, WriteFault};

fn white() -> Lettering
    ensures { result ≡ spec.white }
{
    Lettering {
        anchor: Anchor::Start,
        face: Face::Plain,
        ink: Some(Colour::White),
        upwards: false,
    }
}

/// Begins a text of plain letters.
pub(crate) fn open_plain<W: Out>(out: &mut W, x: usize, y: usize) -> Result<(), WriteFault>
    ensures written { Writes (W.Out.state out.old) (W.Out.state out.new) (text_front x y looks.plain) result }
{
    open_label(out, x as u128, y as u128, Anchor::Start, Face::Plain)
}

/// Writes plain letters.
pub(crate) fn write_note<W: Out>(
    out: &mut W,
    x: usize,
    y: usize,
    what: &[u8],
) -> Result<(), WriteFault>
    ensures written { Writes (W.Out.state out.old) (W.Out.state out.new) (shape_text (spec.note x y what.now)) result }
{
    write_label(out, x as u128, y as u128, Anchor::Start, Face::Plain, what)
}

/// Writes white letters.
pub(crate) fn write_white<W: Out>(
    out: &mut W,
    x: usize,
    y: usize,
    what: &[u8],
) -> Result<(), WriteFault>
    ensures written { Writes (W.Out.state out.old) (W.Out.state out.new) (shape_text (spec.white_note x y what.now)) result }
{
    write_text(out, x as u128, y as u128, &white(), what)
}

/// Begins a row of a program's text, which reads upwards.
pub(crate) fn open_code<W: Out>(out: &mut W, x: usize, y: usize) -> Result<(), WriteFault>
    ensures written { Writes (W.Out.state out.old) (W.Out.state out.new) (text_front x y looks.upwards) result }
{
    open_text(out, x as u128, y as u128, &UPWARDS)
}

/// Writes the title of an axis.
pub(crate) fn write_axis<W: Out>(out: &mut W, y: usize, what: &[u8]) -> Result<(), WriteFault>
    ensures written { Writes (W.Out.state out.old) (W.Out.state out.new) (shape_text (spec.axis y what.now)) result }
{
    write_label(out, 12, y as u128, Anchor::Start, Face::Bold, what)
}
