//! The exchanges of a run, in words or drawn.

ghost use Rattle.std.specs.Prelude.{◌++◌};
ghost use Rattle.text_out.specs.Out.{Writes};
ghost use Rattle.write_rules.specs.Verdict.{verdict_of};
ghost use Rattle.program_texts.specs.Shown.{shown};
ghost use Rattle.program_texts.specs.Status.{status_of};
ghost use Rattle.svg_texts.specs.Shapes.{picture_text};
ghost use Rattle.tracer.specs.Picture.{picture};
ghost use Rattle.command_facts.specs.Written.{Wrote};
ghost use Rattle.command_text.specs.Costs.{if_asked};
ghost use Rattle.command_text.specs.Traces as spec;

use command_facts::{FoundRun, FoundTrace};
use command_requests::TraceWords;
use exchange_counts::Counts;
use pram_trees::Layout;
use program_texts::{Status, Stop, finish, show};
use text_out::{Out, WriteFault};
use tracer::{Rates, write_bsp_cost, write_picture, write_trace};
use write_rules::Outcome;

// What they cost, where that is asked for.
fn write_cost<O: Out>(
    out: &mut O,
    counts: &Counts,
    rates: Option<(u32, u32)>,
) -> Result<(), WriteFault>
    ensures written { Writes (O.Out.state out.old) (O.Out.state out.new) (spec.rated_text rates counts.now) result }
{
    match rates {
        None => out.write_all(b""),
        Some((word, start)) => write_bsp_cost(counts, Rates { word, start }, out),
    }
}

// The outcome of the run, where that is asked for.
fn write_end<O: Out>(
    out: &mut O,
    layout: &Layout,
    outcome: &Outcome,
    asked: bool,
) -> Result<(), WriteFault>
    ensures written { Writes (O.Out.state out.old) (O.Out.state out.new)
        (if_asked asked (shown layout.now (verdict_of outcome.now))) result }
{
    if asked {
        show(layout, outcome, out)
    } else {
        out.write_all(b"")
    }
}

// What stands behind the exchanges.
fn write_behind<O: Out>(
    out: &mut O,
    layout: &Layout,
    outcome: &Outcome,
    counts: &Counts,
    words: TraceWords,
) -> Result<(), WriteFault>
    ensures written { Writes (O.Out.state out.old) (O.Out.state out.new)
        (spec.behind words (shown layout.now (verdict_of outcome.now)) counts.now) result }
{
    write_cost(out, counts, words.rates)?;
    write_end(out, layout, outcome, words.outcome)
}

fn write_told<O: Out>(
    out: &mut O,
    layout: &Layout,
    outcome: &Outcome,
    found: &FoundTrace,
    words: TraceWords,
) -> Result<(), WriteFault>
    ensures written { Writes (O.Out.state out.old) (O.Out.state out.new)
        (spec.exchanges_text words (shown layout.now (verdict_of outcome.now)) found.now) result }
{
    write_trace(&found.counts, &found.lines, out)?;
    write_behind(out, layout, outcome, &found.counts, words)
}

// The exchanges of a run, and behind them what is asked for.
fn write_exchanges<'a, O: Out>(
    out: &mut O,
    layout: &Layout,
    outcome: &Outcome,
    found: &FoundTrace,
    words: TraceWords,
) -> Result<Status, Stop<'a>>
    ensures written { Wrote (status_of outcome.now)
        (spec.exchanges_text words (shown layout.now (verdict_of outcome.now)) found.now)
        (O.Out.state out.old) (O.Out.state out.new) result }
{
    write_told(out, layout, outcome, found, words)?;
    finish(out, Status::of(outcome))
}

// A picture of the exchanges of a run.
fn write_drawn<'a, O: Out>(
    out: &mut O,
    outcome: &Outcome,
    found: &FoundTrace,
) -> Result<Status, Stop<'a>>
    ensures written { Wrote (status_of outcome.now) (picture_text (picture found.now.lines.items found.now.ends.items found.now.counts))
        (O.Out.state out.old) (O.Out.state out.new) result }
{
    write_picture(&found.counts, &found.lines, &found.ends, out)?;
    finish(out, Status::of(outcome))
}

/// Writes the exchanges of a run, in words or drawn.
pub(crate) fn write_found_trace<'a, O: Out>(
    out: &mut O,
    run: &FoundRun<'_>,
    words: TraceWords,
    found: &FoundTrace,
) -> Result<Status, Stop<'a>>
    ensures written { Wrote (status_of run.now.outcome)
        (spec.counts_text words.drawn words (spec.outcome_text run.now) found.now)
        (O.Out.state out.old) (O.Out.state out.new) result }
{
    if words.drawn {
        write_drawn(out, &run.outcome, found)
    } else {
        write_exchanges(out, run.loaded.program.layout(), &run.outcome, found, words)
    }
}
