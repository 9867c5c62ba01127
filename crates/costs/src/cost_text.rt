//! The text of what a run costs.

ghost use Rattle.std.specs.Prelude.{codes};
ghost use Rattle.text_out.specs.Out.{Writes};
ghost use Rattle.write_rules.specs.Verdict.{verdict_of};
ghost use Rattle.costs.specs.CostText as spec;

use crate::Cost;
use itoa::Buffer;
use text_out::{Out, WriteFault};
use write_rules::Outcome;

/// Writes what a run with that outcome costs, one fact a line: its time, its work, its width, its
/// reads and its writes; where it doesn't fault, the most exchanges that it takes, and, where the costs
/// have it, the most words that workers send in them; and where it is scheduled on some number of
/// processors, the rounds on them and the most that Brent's principle allows. The error is that the
/// writer failed (E17).
pub fn write_cost<W: Out>(
    outcome: &Outcome,
    cost: &Cost,
    schedule: Option<u32>,
    out: &mut W,
) -> Result<(), WriteFault>
    // Exactly the text of these costs is written, or a beginning of it and then a failure. The most exchanges and words
    // stand there where the outcome is no fault.
    ensures written { Writes (W.Out.state out.old) (W.Out.state out.new)
        (spec.cost_text (verdict_of outcome.now) cost.now schedule) result }
{
    write_work(cost, out)?;
    write_accesses(cost, out)?;
    write_bound(outcome, cost, out)?;
    match schedule {
        None => Ok(()),
        Some(processors) => write_rounds(cost, processors, out),
    }
}

// Time, work and width.
fn write_work<W: Out>(cost: &Cost, out: &mut W) -> Result<(), WriteFault>
    ensures written { Writes (W.Out.state out.old) (W.Out.state out.new) (spec.work_lines cost.now) result }
{
    let mut time = Buffer::new();
    let mut work = Buffer::new();
    let mut width = Buffer::new();
    out.write_parts(&[
        b"time ",
        time.format(cost.time).as_bytes(),
        b"\nwork ",
        work.format(cost.work).as_bytes(),
        b"\nwidth ",
        width.format(cost.width).as_bytes(),
        b"\n",
    ])
}

// Reads and writes.
fn write_accesses<W: Out>(cost: &Cost, out: &mut W) -> Result<(), WriteFault>
    ensures written { Writes (W.Out.state out.old) (W.Out.state out.new) (spec.access_lines cost.now) result }
{
    let mut reads = Buffer::new();
    let mut writes = Buffer::new();
    out.write_parts(&[
        b"reads ",
        reads.format(cost.reads).as_bytes(),
        b"\nwrites ",
        writes.format(cost.writes).as_bytes(),
        b"\n",
    ])
}

// The most exchanges and words, where the run doesn't fault.
fn write_bound<W: Out>(outcome: &Outcome, cost: &Cost, out: &mut W) -> Result<(), WriteFault>
    ensures written { Writes (W.Out.state out.old) (W.Out.state out.new) (spec.bound_lines (verdict_of outcome.now) cost.now) result }
{
    match outcome {
        Outcome::Ended { .. } => write_most(cost, out),
        Outcome::Faulted { .. } => Ok(()),
        Outcome::GoesOn { .. } => write_most(cost, out),
    }
}

fn write_most<W: Out>(cost: &Cost, out: &mut W) -> Result<(), WriteFault>
    ensures written { Writes (W.Out.state out.old) (W.Out.state out.new) (spec.most_lines cost.now) result }
{
    write_exchanges(cost, out)?;
    write_words(cost.most_words, out)
}

fn write_words<W: Out>(words: Option<u128>, out: &mut W) -> Result<(), WriteFault>
    ensures written { Writes (W.Out.state out.old) (W.Out.state out.new) (spec.words_line words) result }
{
    match words {
        None => Ok(()),
        Some(words) => {
            let mut most = Buffer::new();
            out.write_parts(&[b"words at most ", most.format(words).as_bytes(), b"\n"])
        }
    }
}

fn write_exchanges<W: Out>(cost: &Cost, out: &mut W) -> Result<(), WriteFault>
    ensures written { Writes (W.Out.state out.old) (W.Out.state out.new)
        (spec.fact (codes "exchanges at most ") cost.now.most_exchanges) result }
{
    let mut most = Buffer::new();
    out.write_parts(&[
        b"exchanges at most ",
        most.format(cost.most_exchanges).as_bytes(),
        b"\n",
    ])
}

// The rounds on so many processors.
fn write_rounds<W: Out>(cost: &Cost, processors: u32, out: &mut W) -> Result<(), WriteFault>
    ensures written { Writes (W.Out.state out.old) (W.Out.state out.new) (spec.round_lines cost.now processors) result }
{
    let mut on = Buffer::new();
    let mut rounds = Buffer::new();
    let mut most = Buffer::new();
    out.write_parts(&[
        b"rounds on ",
        on.format(processors).as_bytes(),
        b": ",
        rounds.format(cost.rounds).as_bytes(),
        b"\nat most ",
        most.format(cost.most_rounds).as_bytes(),
        b"\n",
    ])
}
