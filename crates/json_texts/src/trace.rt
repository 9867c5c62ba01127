//! The exchanges of a run.

ghost use Rattle.std.specs.Prelude.{◌≡◌, ◌≤◌, ◌∷◌, [], IfOk, OnOk, length, string_bytes};
ghost use Rattle.serde_json.specs.View.{view};
ghost use Rattle.json_texts.specs.Facts.{with_fields};
ghost use Rattle.json_texts.specs.Lines.{Adds, IsJson};
ghost use Rattle.json_texts.specs.Shown.{shown};
ghost use Rattle.write_rules.specs.Verdict.{verdict_of};
ghost use Rattle.exchange_counts.specs.CountedExchanges.{exchange_at};
ghost use Rattle.json_texts.specs.TraceFacts as spec;

use crate::exchange::{exchange_facts, line_of};
use crate::line::push_line;
use crate::outcome::put_outcome;
use crate::{Object, Value};
use exchange_counts::Counts;
use memory_texts::Choice;
use pram_trees::Layout;
use std::alloc::{AllocError, Global};
use write_rules::Outcome;

// How a run came out.
fn way_of(outcome: &Outcome) -> &'static str
    ensures { result.now ≡ spec.way (verdict_of outcome.now) }
{
    match outcome {
        Outcome::Ended { .. } => "ended",
        Outcome::Faulted { .. } => "fault",
        Outcome::GoesOn { .. } => "goes on",
    }
}

fn put_cost(object: &mut Object, cost: Option<u128>) -> Result<(), AllocError>
    ensures { OnOk result (shown object.new ≡ with_fields (spec.cost_fields cost) (shown object.old)) }
{
    match cost {
        None => Ok(()),
        Some(cost) => object.put_large("cost", cost),
    }
}

// And where that is asked for, what it printed and its memory or its fault.
fn put_end(
    alloc: Global,
    object: &mut Object,
    layout: &Layout,
    whole: bool,
    outcome: &Outcome,
) -> Result<(), AllocError>
    ensures { OnOk result (shown object.new
        ≡ with_fields (spec.end_fields whole layout.now (verdict_of outcome.now)) (shown object.old)) }
{
    if whole {
        put_outcome(alloc, object, layout, outcome, Choice::All)
    } else {
        object.put_word("outcome", way_of(outcome))
    }
}

fn way_facts(
    alloc: Global,
    layout: &Layout,
    whole: bool,
    outcome: &Outcome,
    cost: Option<u128>,
) -> Result<Value, AllocError>
    ensures { IfOk result (λ v. view v ≡ spec.way_facts whole layout.now (verdict_of outcome.now) cost) }
{
    let mut object = Object::new(alloc);
    put_end(alloc, &mut object, layout, whole, outcome)?;
    put_cost(&mut object, cost)?;
    Ok(object.into_value())
}

// The line of an exchange, from 1.
fn push_exchange(
    alloc: Global,
    text: &mut String,
    counts: &Counts,
    line: Option<u32>,
    k: usize,
) -> Result<(), AllocError>
    requires first { 1 ≤ k }
    requires last { k ≤ length counts.now }
    ensures json { OnOk result (Adds (spec.exchange_facts k line (exchange_at counts.now k) ∷ [])
        (string_bytes text.old) (string_bytes text.new)) }
{
    let facts = exchange_facts(alloc, counts, line, k)?;
    push_line(alloc, text, &facts)
}

// The lines of the exchanges.
fn exchanges_text(alloc: Global, counts: &Counts, lines: &[u32]) -> Result<String, AllocError>
    ensures json { IfOk result (λ text. IsJson (spec.exchanges_from lines.now 1 counts.now) (string_bytes text)) }
{
    let mut text = String::new(alloc);
    'exchanges: for i in 0..counts.len() {
        push_exchange(alloc, &mut text, counts, line_of(lines, i + 1), i + 1)?;
    }
    Ok(text)
}

// The line behind them.
fn push_way(
    alloc: Global,
    text: &mut String,
    layout: &Layout,
    whole: bool,
    outcome: &Outcome,
    cost: Option<u128>,
) -> Result<(), AllocError>
    ensures json { OnOk result (Adds (spec.way_facts whole layout.now (verdict_of outcome.now) cost ∷ [])
        (string_bytes text.old) (string_bytes text.new)) }
{
    let facts = way_facts(alloc, layout, whole, outcome, cost)?;
    push_line(alloc, text, &facts)
}

/// The exchanges of a run, each on a line, as `{"exchange":2,"for":"reply","h":2,"received":[1,2],"sent":[2,1]}`: its number from 1, what
/// it was for (`send`, `reply`, `vote` or `close`), how many words each worker sent and received, in order of workers, and the greatest
/// of these; and the `line` of the statement that it serves, where it is known. On the last line how the run came out, as
/// `{"outcome":"ended"}`, or its whole outcome as [`json_outcome`](crate::json_outcome) tells it, and what its exchanges `cost`, where that
/// is given.
pub fn json_trace(
    alloc: Global,
    counts: &Counts,
    lines: &[u32],
    layout: &Layout,
    whole: bool,
    cost: Option<u128>,
    outcome: &Outcome,
) -> Result<String, AllocError>
    // The lines are exactly the facts of the run's exchanges, their cost and its outcome, whole where that is asked
    // for, and read as JSON each line is these again.
    ensures json { IfOk result
        (λ text. IsJson (spec.trace_facts lines.now whole layout.now cost counts.now (verdict_of outcome.now)) (string_bytes text)) }
{
    let mut text = exchanges_text(alloc, counts, lines)?;
    push_way(alloc, &mut text, layout, whole, outcome, cost)?;
    Ok(text)
}
