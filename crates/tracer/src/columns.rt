//! The columns of exchanges.

ghost use Rattle.std.specs.Prelude.{◌≡◌, ◌≤◌, ◌<◌, ◌+◌, ◌-◌, ◌*◌, ◌^◌, length};
ghost use Rattle.superstep_machine.specs.Trace.{relation_of};
ghost use Rattle.text_out.specs.Out.{Writes};
ghost use Rattle.superstep_machine.specs.Purposes.{purpose_is};
ghost use Rattle.exchange_counts.specs.CountedExchanges.{exchange_at};
ghost use Rattle.svg_texts.specs.Shapes.{shape_text};
ghost use Rattle.tracer.specs.Picture as spec;

use crate::bars::{Scale, write_received_bars, write_sent_bars, write_worker_numbers};
use crate::exchange_line::kind_word;
use crate::numbers::write_named_number;
use exchange_counts::{Counts, Purpose};
use svg_texts::{Anchor, Colour, Face, Form, write_filled, write_label, write_number};
use text_out::{Out, WriteFault};

const LEFT: u128 = 168;

/// How the columns of a run are drawn: how wide each is, in pixels, and for how many words the tallest bar is.
#[derive(Clone, Copy, Debug)]
pub(crate) struct Measure {
    pub(crate) workers: usize,
    pub(crate) most: u64,
}

/// How wide the column of an exchange is.
pub(crate) fn column_width(workers: usize) -> u128
    ensures width { result ≡ spec.column_width workers }
    ensures fits { result < 2 ^ 70 }
{
    14 * workers as u128 + 50
}

// What stands behind a column.
fn ground(purpose: Purpose) -> Colour
    ensures { result ≡ spec.ground (purpose_is purpose) }
{
    match purpose {
        Purpose::Send => Colour::Pale,
        Purpose::Reply => Colour::White,
        Purpose::Vote { destination: _ } => Colour::Light,
        Purpose::Close => Colour::White,
    }
}

// Its number and its kind above the bars, and its h below them.
fn write_column_words<W: Out>(
    out: &mut W,
    x: u128,
    k: usize,
    purpose: Purpose,
    h: u64,
) -> Result<(), WriteFault>
    requires near { x < 2 ^ 100 }
    ensures written { Writes (W.Out.state out.old) (W.Out.state out.new)
        (shape_text (spec.column_words x k (purpose_is purpose) h)) result }
{
    write_number(out, x + 4, 64, Anchor::Start, Face::Plain, k as u128)?;
    write_label(
        out,
        x + 4,
        78,
        Anchor::Start,
        Face::Plain,
        kind_word(purpose),
    )?;
    write_named_number(out, x + 4, 344, b"h ", h)
}

// What is behind a column from x on, and its words.
fn write_front<W: Out>(
    out: &mut W,
    x: u128,
    width: u128,
    k: usize,
    purpose: Purpose,
    h: u64,
) -> Result<(), WriteFault>
    requires near { x < 2 ^ 100 }
    ensures written { Writes (W.Out.state out.old) (W.Out.state out.new)
        (shape_text (spec.column_front x width k (purpose_is purpose) h)) result }
{
    let behind = Form::Rectangle {
        left: x,
        top: 50,
        wide: width,
        tall: 300,
    };
    write_filled(out, &behind, ground(purpose))?;
    write_column_words(out, x, k, purpose, h)
}

// The line of the statement that an exchange serves, where it is known.
fn write_column_line<W: Out>(out: &mut W, x: u128, line: Option<u32>) -> Result<(), WriteFault>
    requires near { x < 2 ^ 100 }
    ensures written { Writes (W.Out.state out.old) (W.Out.state out.new) (shape_text (spec.column_line x line)) result }
{
    match line {
        None => Ok(()),
        Some(line) => write_named_number(out, x + 4, 92, b"line ", line as u64),
    }
}

// What stands above and below the bars of exchange k.
fn write_head<W: Out>(
    out: &mut W,
    counts: &Counts,
    x: u128,
    width: u128,
    k: usize,
    line: Option<u32>,
) -> Result<(), WriteFault>
    requires near { x < 2 ^ 100 }
    requires first { 1 ≤ k }
    requires last { k ≤ length counts.now }
    ensures written { Writes (W.Out.state out.old) (W.Out.state out.new)
        (shape_text (spec.column_head x width k line (exchange_at counts.now k))) result }
{
    let (purpose, h) = counts.exchange(k);
    write_front(out, x, width, k, purpose, h)?;
    write_column_line(out, x, line)
}

// The bars of an exchange in a column.
fn write_bars<W: Out>(
    out: &mut W,
    counts: &Counts,
    scale: Scale,
    k: usize,
) -> Result<(), WriteFault>
    requires first { 1 ≤ k }
    requires last { k ≤ length counts.now }
    requires most { relation_of (exchange_at counts.now k) ≤ scale.most }
    ensures written { Writes (W.Out.state out.old) (W.Out.state out.new)
        (shape_text (spec.bars scale.most scale.x (exchange_at counts.now k))) result }
{
    write_sent_bars(out, counts, scale, k)?;
    write_received_bars(out, counts, scale, k)
}

// The bars, and the numbers of their workers.
fn write_body<W: Out>(
    out: &mut W,
    counts: &Counts,
    scale: Scale,
    k: usize,
) -> Result<(), WriteFault>
    requires first { 1 ≤ k }
    requires last { k ≤ length counts.now }
    requires most { relation_of (exchange_at counts.now k) ≤ scale.most }
    ensures written { Writes (W.Out.state out.old) (W.Out.state out.new)
        (shape_text (spec.column_body scale.most scale.x (exchange_at counts.now k))) result }
{
    let workers = counts.workers();
    write_bars(out, counts, scale, k)?;
    write_worker_numbers(out, scale.x, workers)
}

// Where the column of exchange k begins.
fn column_left(measure: Measure, k: usize) -> u128
    requires first { 1 ≤ k }
    requires few { k ≤ 200 }
    ensures left { result ≡ spec.column_left measure.workers k }
    ensures near { result < 2 ^ 100 }
{
    LEFT + column_width(measure.workers) * (k as u128 - 1)
}

/// Writes the column of an exchange, counted from 1.
pub(crate) fn write_column<W: Out>(
    out: &mut W,
    counts: &Counts,
    measure: Measure,
    k: usize,
    line: Option<u32>,
) -> Result<(), WriteFault>
    requires first { 1 ≤ k }
    requires last { k ≤ length counts.now }
    requires few { k ≤ 200 }
    requires most { relation_of (exchange_at counts.now k) ≤ measure.most }
    ensures written { Writes (W.Out.state out.old) (W.Out.state out.new)
        (shape_text (spec.column measure.workers measure.most k line (exchange_at counts.now k))) result }
{
    let x = column_left(measure, k);
    let width = column_width(measure.workers);
    write_head(out, counts, x, width, k, line)?;
    let scale = Scale {
        x,
        most: measure.most,
    };
    write_body(out, counts, scale, k)
}
