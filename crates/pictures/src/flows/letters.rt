//! Texts of a program.

ghost use Rattle.std.specs.Prelude.{◌≡◌, ◌<◌, ◌^◌, ◌++◌, drop, take};
ghost use Rattle.text_out.specs.Out.{Writes};
ghost use Rattle.svg_texts.specs.Letters as svg;
ghost use Rattle.svg_texts.specs.Shapes.{shape_text, words_text};
ghost use Rattle.pictures.specs.Flows.MarkShapes as spec;

use crate::looks::UPWARDS;
use svg_texts::{close_text, open_text, write_letters};
use text_out::{Out, WriteFault};
use text_places::line_text;

// No more of a line is shown.
const MOST: usize = 24;

// What stands behind an offset, and nothing where there is no such.
fn behind(text: &[u8], offset: usize) -> &[u8]
    ensures { result.now ≡ drop offset text.now }
{
    if offset < text.len() {
        text.split_at(offset).1
    } else {
        &[]
    }
}

/// What stands in the line of an offset, from there on.
pub(crate) fn source_at(text: &[u8], offset: u32) -> &[u8]
    ensures { result.now ≡ spec.source_at text.now offset }
{
    line_text(behind(text, offset as usize), 1)
}

// As much as has room.
fn front(source: &[u8]) -> &[u8]
    ensures { result.now ≡ take 24 source.now }
{
    if source.len() > MOST {
        source.split_at(MOST).0
    } else {
        source
    }
}

fn write_shown<W: Out>(out: &mut W, source: &[u8]) -> Result<(), WriteFault>
    ensures written { Writes (W.Out.state out.old) (W.Out.state out.new) (svg.letters (take 24 source.now)) result }
{
    write_letters(out, front(source))
}

// That more stands there than has room.
fn write_source_cut<W: Out>(out: &mut W, source: &[u8]) -> Result<(), WriteFault>
    ensures written { Writes (W.Out.state out.old) (W.Out.state out.new) (words_text (spec.source_cut source.now)) result }
{
    if source.len() > MOST {
        out.write_all(b" ..")
    } else {
        Ok(())
    }
}

fn write_source_words<W: Out>(out: &mut W, source: &[u8]) -> Result<(), WriteFault>
    ensures written { Writes (W.Out.state out.old) (W.Out.state out.new)
        (svg.letters (take 24 source.now) ++ words_text (spec.source_cut source.now)) result }
{
    write_shown(out, source)?;
    write_source_cut(out, source)
}

/// Writes what stands in the line of a statement, upwards.
pub(crate) fn write_source<W: Out>(out: &mut W, x: u128, source: &[u8]) -> Result<(), WriteFault>
    requires near { x < 2 ^ 100 }
    ensures written { Writes (W.Out.state out.old) (W.Out.state out.new) (shape_text (spec.source_shape x source.now)) result }
{
    open_text(out, x + 4, 250, &UPWARDS)?;
    write_source_words(out, source)?;
    close_text(out)
}
