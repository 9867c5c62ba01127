//! What the exchanges of a run cost.

ghost use Rattle.std.specs.Prelude.{◌≡◌, ◌≤◌, ◌+◌, ◌*◌, ◌^◌, length};
ghost use Rattle.text_out.specs.Out.{Writes};
ghost use Rattle.exchange_counts.specs.CountedExchanges.{exchange_at};
ghost use Rattle.tracer.specs.Cost as spec;

use exchange_counts::Counts;
use itoa::Buffer;
use text_out::{Out, WriteFault};

/// What an exchange costs by word, and to begin with.
#[derive(Clone, Copy, Debug)]
pub struct Rates {
    /// For each word of the worker that sends or receives most, Valiant's g.
    pub word: u32,
    /// For each exchange, Valiant's L.
    pub start: u32,
}

// What exchange k costs.
fn exchange_cost(counts: &Counts, rates: Rates, k: usize) -> u128
    requires first { 1 ≤ k }
    requires last { k ≤ length counts.now }
    ensures cost { result ≡ spec.exchange_cost rates.word rates.start (exchange_at counts.now k) }
{
    let (_purpose, h) = counts.exchange(k);
    u128::from(rates.word) * u128::from(h) + u128::from(rates.start)
}

/// What the exchanges of a run cost together, each its h, the most words that one worker sent or received in it, times the rate of a word,
/// and the rate of its start; what workers compute between them isn't in it. `None` where that is no number of 128 bits.
pub fn bsp_cost(counts: &Counts, rates: Rates) -> Option<u128>
    // The answer is the sum of g times h, and l, over all exchanges, or none where that has more than 128 bits.
    ensures cost { result ≡ spec.in_128_bits (spec.bsp_cost rates.word rates.start counts.now) }
{
    let mut sum: u128 = 0;
    'exchanges: for i in 0..counts.len() {
        match sum.checked_add(exchange_cost(counts, rates, i + 1)) {
            None => return None,
            Some(more) => sum = more,
        }
    }
    Some(sum)
}

fn write_number<W: Out>(cost: Option<u128>, out: &mut W) -> Result<(), WriteFault>
    ensures written { Writes (W.Out.state out.old) (W.Out.state out.new) (spec.number_line cost) result }
{
    match cost {
        None => out.write_all(b"cost 2^128 or more\n"),
        Some(cost) => {
            let mut digits = Buffer::new();
            out.write_parts(&[b"cost ", digits.format(cost).as_bytes(), b"\n"])
        }
    }
}

/// Writes what the exchanges of a run cost together, as `cost 340`, or that this is no number of 128 bits. `WriteFault` (E17) says that the
/// writer failed; what it took is a beginning of the line.
pub fn write_bsp_cost<W: Out>(counts: &Counts, rates: Rates, out: &mut W) -> Result<(), WriteFault>
    ensures written { Writes (W.Out.state out.old) (W.Out.state out.new) (spec.cost_text rates.word rates.start counts.now) result }
{
    write_number(bsp_cost(counts, rates), out)
}
