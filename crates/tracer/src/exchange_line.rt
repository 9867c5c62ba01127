//! The line of an exchange.

ghost use Rattle.std.specs.Prelude.{◌≡◌, ◌≤◌, length};
ghost use Rattle.text_out.specs.Out.{Writes};
ghost use Rattle.superstep_machine.specs.Purposes.{purpose_is};
ghost use Rattle.superstep_machine.specs.Trace.{relation_of};
ghost use Rattle.exchange_counts.specs.CountedExchanges.{exchange_at};
ghost use Rattle.tracer.specs.Traced as spec;

use exchange_counts::{Counts, Purpose};
use itoa::Buffer;
use text_out::{Out, WriteFault};

/// The word for what an exchange is for: `send`, `reply`, `vote` or `close`.
pub(crate) fn kind_word(purpose: Purpose) -> &'static [u8]
    ensures { result.now ≡ spec.kind_text (purpose_is purpose) }
{
    match purpose {
        Purpose::Send => b"send",
        Purpose::Reply => b"reply",
        Purpose::Vote { destination: _ } => b"vote",
        Purpose::Close => b"close",
    }
}

/// The line of exchange k, counted from 1, where there is one.
pub(crate) fn line_of(lines: &[u32], k: usize) -> Option<u32>
    requires first { 1 ≤ k }
    ensures { result ≡ spec.line_of lines.now k }
{
    match lines.get(k - 1) {
        Some(line) => Some(*line),
        None => None,
    }
}

// The words that each worker sent, each number behind a space.
fn write_sent<W: Out>(counts: &Counts, k: usize, out: &mut W) -> Result<(), WriteFault>
    requires first { 1 ≤ k }
    requires last { k ≤ length counts.now }
    ensures written { Writes (W.Out.state out.old) (W.Out.state out.new) (spec.spaced (exchange_at counts.now k).sent) result }
{
    let workers = counts.workers();
    'workers: for w in 0..workers {
        let mut digits = Buffer::new();
        out.write_parts(&[b" ", digits.format(counts.sent(k, w)).as_bytes()])?;
    }
    Ok(())
}

// The words that each worker received, each number behind a space.
fn write_received<W: Out>(counts: &Counts, k: usize, out: &mut W) -> Result<(), WriteFault>
    requires first { 1 ≤ k }
    requires last { k ≤ length counts.now }
    ensures written { Writes (W.Out.state out.old) (W.Out.state out.new) (spec.spaced (exchange_at counts.now k).received) result }
{
    let workers = counts.workers();
    'workers: for w in 0..workers {
        let mut digits = Buffer::new();
        out.write_parts(&[b" ", digits.format(counts.received(k, w)).as_bytes()])?;
    }
    Ok(())
}

fn write_named_received<W: Out>(counts: &Counts, k: usize, out: &mut W) -> Result<(), WriteFault>
    requires first { 1 ≤ k }
    requires last { k ≤ length counts.now }
    ensures written { Writes (W.Out.state out.old) (W.Out.state out.new) (spec.received_text (exchange_at counts.now k).received) result }
{
    out.write_all(b" received")?;
    write_received(counts, k, out)
}

// What each worker sent, and what it received.
fn write_words<W: Out>(counts: &Counts, k: usize, out: &mut W) -> Result<(), WriteFault>
    requires first { 1 ≤ k }
    requires last { k ≤ length counts.now }
    ensures written { Writes (W.Out.state out.old) (W.Out.state out.new) (spec.words_text (exchange_at counts.now k)) result }
{
    write_sent(counts, k, out)?;
    write_named_received(counts, k, out)
}

fn write_relation<W: Out>(h: u64, out: &mut W) -> Result<(), WriteFault>
    ensures written { Writes (W.Out.state out.old) (W.Out.state out.new) (spec.relation_text h) result }
{
    let mut digits = Buffer::new();
    out.write_parts(&[b" h ", digits.format(h).as_bytes()])
}

// The line, where it is known, and the end.
fn write_line<W: Out>(line: Option<u32>, out: &mut W) -> Result<(), WriteFault>
    ensures written { Writes (W.Out.state out.old) (W.Out.state out.new) (spec.line_text line) result }
{
    match line {
        None => out.write_all(b"\n"),
        Some(line) => {
            let mut digits = Buffer::new();
            out.write_parts(&[b" line ", digits.format(line).as_bytes(), b"\n"])
        }
    }
}

fn write_ending<W: Out>(h: u64, line: Option<u32>, out: &mut W) -> Result<(), WriteFault>
    ensures written { Writes (W.Out.state out.old) (W.Out.state out.new) (spec.ending_text h line) result }
{
    write_relation(h, out)?;
    write_line(line, out)
}

fn write_front<W: Out>(k: usize, purpose: Purpose, out: &mut W) -> Result<(), WriteFault>
    ensures written { Writes (W.Out.state out.old) (W.Out.state out.new) (spec.front_text k (purpose_is purpose)) result }
{
    let mut digits = Buffer::new();
    out.write_parts(&[
        digits.format(k).as_bytes(),
        b" ",
        kind_word(purpose),
        b" sent",
    ])
}

// What stands behind ` sent`, of an exchange of this h.
fn write_rest<W: Out>(
    counts: &Counts,
    k: usize,
    h: u64,
    line: Option<u32>,
    out: &mut W,
) -> Result<(), WriteFault>
    requires first { 1 ≤ k }
    requires last { k ≤ length counts.now }
    requires relation { h ≡ relation_of (exchange_at counts.now k) }
    ensures written { Writes (W.Out.state out.old) (W.Out.state out.new) (spec.rest_text line (exchange_at counts.now k)) result }
{
    write_words(counts, k, out)?;
    write_ending(h, line, out)
}

/// Writes the line of an exchange, from 1.
pub(crate) fn write_exchange<W: Out>(
    counts: &Counts,
    k: usize,
    line: Option<u32>,
    out: &mut W,
) -> Result<(), WriteFault>
    requires first { 1 ≤ k }
    requires last { k ≤ length counts.now }
    ensures written { Writes (W.Out.state out.old) (W.Out.state out.new) (spec.exchange_text k line (exchange_at counts.now k)) result }
{
    let (purpose, h) = counts.exchange(k);
    write_front(k, purpose, out)?;
    write_rest(counts, k, h, line, out)
}
