//! All of a picture.

ghost use Rattle.std.specs.Prelude.{◌≡◌, ◌≤◌, ◌++◌, length};
ghost use Rattle.text_out.specs.Out.{Writes};
ghost use Rattle.svg_texts.specs.declared.form.Form.TheVariants as form;
ghost use Rattle.svg_texts.specs.Shapes.{picture_text, shape_text, words_text};
ghost use Rattle.tracer.specs.Picture as spec;

use crate::bars::{write_as_received, write_as_sent};
use crate::columns::{Measure, column_width, write_column};
use crate::exchange_line::line_of;
use crate::scale::write_scale;
use exchange_counts::Counts;
use svg_texts::{
    Anchor, Face, Form, close_picture, close_text, open_label, open_picture, write_label,
    write_letters, write_numbered,
};
use text_out::{Out, WriteFault};

// No more exchanges are drawn.
const MOST_DRAWN: usize = 200;

// How many exchanges are drawn.
fn drawn(counts: &Counts) -> usize
    ensures drawn { result ≡ length (spec.drawn counts.now) }
    ensures all { result ≤ length counts.now }
    ensures few { result ≤ 200 }
{
    MOST_DRAWN.min(counts.len())
}

// The most words that a worker sent or received in one of those.
fn most_words(counts: &Counts) -> u64
    ensures most { result ≡ spec.most_words (spec.drawn counts.now) }
{
    let mut most: u64 = 0;
    'exchanges: for i in 0..drawn(counts) {
        let (_purpose, h) = counts.exchange(i + 1);
        most = most.max(h);
    }
    most
}

fn workers_of(counts: &Counts) -> usize
    ensures { result ≡ spec.workers_of counts.now }
{
    if counts.len() == 0 {
        0
    } else {
        counts.workers()
    }
}

// How wide the picture of so many columns is.
fn picture_width(workers: usize, columns: usize) -> u128
    requires { columns ≤ 200 }
    ensures { result ≡ spec.picture_width workers columns }
{
    (180 + column_width(workers) * columns as u128).max(620)
}

// That not all exchanges are drawn.
fn cut(exchanges: usize) -> &'static [u8]
    ensures { result.now ≡ spec.cut_text exchanges }
{
    if MOST_DRAWN < exchanges {
        b", of which the first 200 are drawn"
    } else {
        b""
    }
}

fn write_head_words<W: Out>(out: &mut W, workers: usize, exchanges: usize) -> Result<(), WriteFault>
    ensures written { Writes (W.Out.state out.old) (W.Out.state out.new) (words_text (spec.head_words workers exchanges)) result }
{
    let ending = cut(exchanges);
    write_numbered(out, b"workers ", workers as u128)?;
    write_numbered(out, b", exchanges ", exchanges as u128)?;
    write_letters(out, ending)
}

// How many workers and exchanges there were.
fn write_head<W: Out>(out: &mut W, workers: usize, exchanges: usize) -> Result<(), WriteFault>
    ensures written { Writes (W.Out.state out.old) (W.Out.state out.new) (shape_text (spec.head workers exchanges)) result }
{
    open_label(out, 12, 20, Anchor::Start, Face::Plain)?;
    write_head_words(out, workers, exchanges)?;
    close_text(out)
}

// The square of a key.
fn key_at(left: u128) -> Form
    ensures { result ≡ form.Rectangle left 28 12 12 }
{
    Form::Rectangle {
        left,
        top: 28,
        wide: 12,
        tall: 12,
    }
}

fn write_key_sent<W: Out>(out: &mut W) -> Result<(), WriteFault>
    ensures written { Writes (W.Out.state out.old) (W.Out.state out.new) (shape_text spec.key_sent) result }
{
    write_as_sent(out, &key_at(12))?;
    write_label(out, 28, 38, Anchor::Start, Face::Plain, b"words sent")
}

fn write_key_received<W: Out>(out: &mut W) -> Result<(), WriteFault>
    ensures written { Writes (W.Out.state out.old) (W.Out.state out.new) (shape_text spec.key_received) result }
{
    write_as_received(out, &key_at(112))?;
    write_label(out, 128, 38, Anchor::Start, Face::Plain, b"words received")
}

// Which bars are which.
fn write_key<W: Out>(out: &mut W) -> Result<(), WriteFault>
    ensures written { Writes (W.Out.state out.old) (W.Out.state out.new) (shape_text spec.key) result }
{
    write_key_sent(out)?;
    write_key_received(out)?;
    write_label(
        out,
        236,
        38,
        Anchor::Start,
        Face::Plain,
        b"h: the most words that one worker sent or received",
    )
}

// What stands above the columns.
fn write_above<W: Out>(out: &mut W, workers: usize, exchanges: usize) -> Result<(), WriteFault>
    ensures written { Writes (W.Out.state out.old) (W.Out.state out.new) (shape_text (spec.above workers exchanges)) result }
{
    write_head(out, workers, exchanges)?;
    write_key(out)
}

// The columns of the exchanges that are drawn.
fn write_columns<W: Out>(
    out: &mut W,
    counts: &Counts,
    lines: &[u32],
    measure: Measure,
) -> Result<(), WriteFault>
    requires most { measure.most ≡ spec.most_words (spec.drawn counts.now) }
    ensures written { Writes (W.Out.state out.old) (W.Out.state out.new)
        (shape_text (spec.columns_from measure.workers measure.most lines.now 1 (spec.drawn counts.now))) result }
{
    'exchanges: for i in 0..drawn(counts) {
        write_column(out, counts, measure, i + 1, line_of(lines, i + 1))?;
    }
    Ok(())
}

// What stands around the columns, and how the run came out below them.
fn write_around<W: Out>(
    out: &mut W,
    width: u128,
    most: u64,
    outcome: &[u8],
) -> Result<(), WriteFault>
    ensures written { Writes (W.Out.state out.old) (W.Out.state out.new) (shape_text (spec.around width most outcome.now)) result }
{
    write_scale(out, width, most)?;
    write_label(out, 12, 372, Anchor::Start, Face::Plain, outcome)
}

// All of a picture of that width, measured so.
fn write_shape<W: Out>(
    out: &mut W,
    counts: &Counts,
    lines: &[u32],
    outcome: &[u8],
    width: u128,
    measure: Measure,
) -> Result<(), WriteFault>
    requires most { measure.most ≡ spec.most_words (spec.drawn counts.now) }
    ensures written { Writes (W.Out.state out.old) (W.Out.state out.new)
        (shape_text (spec.shape_of width measure.workers measure.most lines.now outcome.now counts.now)) result }
{
    let exchanges = counts.len();
    write_above(out, measure.workers, exchanges)?;
    write_columns(out, counts, lines, measure)?;
    write_around(out, width, measure.most, outcome)
}

fn write_measured<W: Out>(
    out: &mut W,
    counts: &Counts,
    lines: &[u32],
    outcome: &[u8],
    width: u128,
    measure: Measure,
) -> Result<(), WriteFault>
    requires most { measure.most ≡ spec.most_words (spec.drawn counts.now) }
    ensures written { Writes (W.Out.state out.old) (W.Out.state out.new)
        (picture_text (spec.picture_of width measure.workers measure.most lines.now outcome.now counts.now)) result }
{
    open_picture(out, b"The exchanges of a run", width, 386)?;
    write_shape(out, counts, lines, outcome, width, measure)?;
    close_picture(out)
}

/// Writes a picture of a run's exchanges, as SVG 1.1: a column for each of the first 200, with its number from 1, what it was for, the line
/// of the statement that it serves where `lines` has one for it, and its h, the most words that one worker sent or received in it. In it
/// each worker has a full bar up for the words that it sent, and a striped one down for those that it received, in proportion to the most
/// of all, by a scale on the left; below stands its number. The last line of text is `outcome`, in which a byte that is no printed letter
/// of ASCII is a question mark. `WriteFault` (E17) says that the writer failed; what it took is a beginning of the picture.
pub fn write_picture<W: Out>(
    counts: &Counts,
    lines: &[u32],
    outcome: &[u8],
    out: &mut W,
) -> Result<(), WriteFault>
    // Exactly the defined picture of these exchanges is written, with their lines and the outcome's text, or a
    // beginning of it and then a failure.
    ensures written { Writes (W.Out.state out.old) (W.Out.state out.new)
        (picture_text (spec.picture lines.now outcome.now counts.now)) result }
{
    let measure = Measure {
        workers: workers_of(counts),
        most: most_words(counts),
    };
    let width = picture_width(measure.workers, drawn(counts));
    write_measured(out, counts, lines, outcome, width, measure)
}
