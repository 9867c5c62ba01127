//! All of a picture.

ghost use Rattle.std.specs.Prelude.{◌≡◌, ◌≤◌, List, map};
ghost use Rattle.text_out.specs.Out.{Writes};
ghost use Rattle.journal.specs.Entries.{Entry};
ghost use Rattle.pictures.specs.Steps.Kept.{Keeps};
ghost use Rattle.pictures.specs.Steps.Measures.{frame_is};
ghost use Rattle.pictures.specs.Steps.Measures as measures;
ghost use Rattle.pictures.specs.Steps.Picture as spec;
ghost use Rattle.svg_texts.specs.Shapes.{picture_front, picture_text, shape_text};

use crate::steps::bands::write_columns;
use crate::steps::drawn::{count_drawn, first_drawn, last_drawn, last_number};
use crate::steps::excerpt::Excerpt;
use crate::steps::foot::write_ending;
use crate::steps::frame::{Frame, Part};
use crate::steps::head::write_head;
use crate::steps::measure::{bands_end, bands_of, letters_of, picture_height, picture_width};
use crate::steps::rows::rows_of;
use pram_trees::Layout;
use svg_texts::{close_picture, open_picture};
use text_out::{Out, WriteFault};

// The opening of a picture of so many statements.
fn write_front<W: Out>(out: &mut W, frame: &Frame<'_>, statements: usize) -> Result<(), WriteFault>
    ensures written { Writes (W.Out.state out.old) (W.Out.state out.new) (picture_front spec.title
        (measures.picture_width (measures.count_drawn statements))
        (measures.picture_height (frame_is frame.now) (measures.count_drawn statements))) result }
{
    let columns = count_drawn(statements);
    open_picture(
        out,
        b"A run, statement by statement",
        picture_width(columns) as u128,
        picture_height(frame, columns) as u128,
    )
}

// The first columns, and the last ones.
fn write_table<W: Out>(out: &mut W, frame: &Frame<'_>, kept: &Excerpt) -> Result<(), WriteFault>
    ensures written { (es : List Entry) → Keeps kept.now es → Writes (W.Out.state out.old) (W.Out.state out.new)
        (shape_text (spec.table (frame_is frame.now) es)) result }
{
    let entries = kept.entries.as_slice();
    write_columns(out, frame, 0, 1, first_drawn(entries))?;
    write_columns(out, frame, 96, last_number(kept.count), last_drawn(entries))
}

// Where the lines below the bands begin.
fn foot_line(frame: &Frame<'_>, statements: usize) -> usize
    ensures line { result ≡ spec.foot_line (frame_is frame.now) statements }
    ensures near { result ≤ 20000 }
{
    bands_end(frame, bands_of(count_drawn(statements))) + 12
}

fn write_foot<W: Out>(out: &mut W, frame: &Frame<'_>, kept: &Excerpt) -> Result<(), WriteFault>
    ensures written { (es : List Entry) → Keeps kept.now es → Writes (W.Out.state out.old) (W.Out.state out.new)
        (shape_text (spec.foot (frame_is frame.now) es)) result }
{
    let y = foot_line(frame, kept.count as usize);
    write_ending(out, frame.layout, y, kept.entries.as_slice())
}

fn write_drawing<W: Out>(out: &mut W, frame: &Frame<'_>, kept: &Excerpt) -> Result<(), WriteFault>
    ensures written { (es : List Entry) → Keeps kept.now es → Writes (W.Out.state out.old) (W.Out.state out.new)
        (shape_text (spec.drawing (frame_is frame.now) es)) result }
{
    write_head(out, frame.part, kept.count as usize, frame.rows.len())?;
    write_table(out, frame, kept)?;
    write_foot(out, frame, kept)
}

fn write_framed<W: Out>(out: &mut W, frame: &Frame<'_>, kept: &Excerpt) -> Result<(), WriteFault>
    ensures written { (es : List Entry) → Keeps kept.now es → Writes (W.Out.state out.old) (W.Out.state out.new)
        (picture_text (spec.picture_of (frame_is frame.now) es)) result }
{
    write_front(out, frame, kept.count as usize)?;
    write_drawing(out, frame, kept)?;
    close_picture(out)
}

/// Writes the picture of a part of a run, of whose entries these are kept.
pub(crate) fn write_part<W: Out>(
    out: &mut W,
    layout: &Layout,
    text: &[u8],
    part: Part,
    kept: &Excerpt,
) -> Result<(), WriteFault>
    ensures written { (es : List Entry) → Keeps kept.now es → Writes (W.Out.state out.old) (W.Out.state out.new)
        (picture_text (spec.picture layout.now text.now part es)) result }
{
    let entries = kept.entries.as_slice();
    let rows = rows_of(entries);
    let letters = letters_of(text, entries);
    let frame = Frame {
        layout,
        text,
        rows: rows.as_slice(),
        letters,
        part,
    };
    write_framed(out, &frame, kept)
}
