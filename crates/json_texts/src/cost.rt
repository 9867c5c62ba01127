//! The costs of a run.

ghost use Rattle.std.specs.Prelude.{◌≡◌, ◌∷◌, [], IfOk, OnOk, Some, map, string_bytes};
ghost use Rattle.serde_json.specs.View.{view};
ghost use Rattle.json_texts.specs.Facts.{with_fields};
ghost use Rattle.json_texts.specs.Lines.{IsJson};
ghost use Rattle.json_texts.specs.Shown.{shown};
ghost use Rattle.write_rules.specs.Verdict.{verdict_of};
ghost use Rattle.json_texts.specs.CostFacts as spec;

use crate::outcome::put_outcome;
use crate::{Object, Value, line_of};
use costs::{Cost, LineCost};
use memory_texts::Choice;
use pram_trees::Layout;
use std::alloc::{AllocError, Global};
use write_rules::Outcome;

fn put_work(object: &mut Object, cost: &Cost) -> Result<(), AllocError>
    ensures { OnOk result (shown object.new ≡ with_fields (spec.work_fields cost.now) (shown object.old)) }
{
    object.put_count("time", u64::from(cost.time))?;
    object.put_large("work", u128::from(cost.work))?;
    object.put_count("width", u64::from(cost.width))?;
    object.put_large("reads", cost.reads)?;
    object.put_large("writes", u128::from(cost.writes))
}

/// The most exchanges, and the most words where they are told.
pub(crate) fn put_most(
    object: &mut Object,
    exchanges: u128,
    words: Option<u128>,
) -> Result<(), AllocError>
    ensures { OnOk result (shown object.new ≡ with_fields (spec.most_fields exchanges words) (shown object.old)) }
{
    match words {
        None => object.put_large("exchanges_at_most", exchanges),
        Some(words) => {
            object.put_large("exchanges_at_most", exchanges)?;
            object.put_large("words_at_most", words)
        }
    }
}

// Both, where the run doesn't fault.
fn put_bound(object: &mut Object, outcome: &Outcome, cost: &Cost) -> Result<(), AllocError>
    ensures { OnOk result (shown object.new ≡ with_fields (spec.bound_fields (verdict_of outcome.now) cost.now) (shown object.old)) }
{
    match outcome {
        Outcome::Ended { .. } => put_most(object, cost.most_exchanges, cost.most_words),
        Outcome::Faulted { .. } => Ok(()),
        Outcome::GoesOn { .. } => put_most(object, cost.most_exchanges, cost.most_words),
    }
}

// The rounds on so many processors.
fn put_rounds_on(object: &mut Object, cost: &Cost, processors: u32) -> Result<(), AllocError>
    ensures { OnOk result (shown object.new ≡ with_fields (spec.round_fields cost.now (Some processors)) (shown object.old)) }
{
    object.put_count("processors", u64::from(processors))?;
    object.put_large("rounds", u128::from(cost.rounds))?;
    object.put_large("rounds_at_most", u128::from(cost.most_rounds))
}

fn put_rounds(object: &mut Object, cost: &Cost, schedule: Option<u32>) -> Result<(), AllocError>
    ensures { OnOk result (shown object.new ≡ with_fields (spec.round_fields cost.now schedule) (shown object.old)) }
{
    match schedule {
        None => Ok(()),
        Some(processors) => put_rounds_on(object, cost, processors),
    }
}

// What a line costs.
fn line_facts(alloc: Global, cost: &LineCost) -> Result<Value, AllocError>
    ensures { IfOk result (λ v. view v ≡ spec.line_facts cost.now) }
{
    let mut object = Object::new(alloc);
    object.put_count("line", u64::from(cost.line))?;
    object.put_count("times", u64::from(cost.times))?;
    object.put_large("work", u128::from(cost.work))?;
    object.put_large("reads", cost.reads)?;
    object.put_large("writes", u128::from(cost.writes))?;
    Ok(object.into_value())
}

// What each of these lines costs.
fn lines_facts(alloc: Global, costs: &[LineCost]) -> Result<Vec<Value>, AllocError>
    ensures { IfOk result (λ list. map view list.items ≡ map spec.line_facts costs.now) }
{
    let mut list = Vec::new(alloc);
    for cost in costs {
        list.push(line_facts(alloc, cost)?)?;
    }
    Ok(list)
}

fn put_lines(alloc: Global, object: &mut Object, cost: &Cost, lines: bool) -> Result<(), AllocError>
    ensures { OnOk result (shown object.new ≡ with_fields (spec.line_fields cost.now lines) (shown object.old)) }
{
    if lines {
        let list = lines_facts(alloc, &cost.lines)?;
        object.put_list("lines", list)
    } else {
        Ok(())
    }
}

// What a run costs, and then its outcome.
fn put_cost(
    alloc: Global,
    object: &mut Object,
    layout: &Layout,
    outcome: &Outcome,
    cost: &Cost,
    schedule: Option<u32>,
    lines: bool,
) -> Result<(), AllocError>
    ensures { OnOk result (shown object.new
        ≡ with_fields (spec.cost_fields layout.now (verdict_of outcome.now) cost.now schedule lines) (shown object.old)) }
{
    put_work(object, cost)?;
    put_bound(object, outcome, cost)?;
    put_rounds(object, cost, schedule)?;
    put_lines(alloc, object, cost, lines)?;
    put_outcome(alloc, object, layout, outcome, Choice::All)
}

fn cost_value(
    alloc: Global,
    layout: &Layout,
    outcome: &Outcome,
    cost: &Cost,
    schedule: Option<u32>,
    lines: bool,
) -> Result<Value, AllocError>
    ensures { IfOk result (λ v. view v ≡ spec.cost_facts layout.now (verdict_of outcome.now) cost.now schedule lines) }
{
    let mut object = Object::new(alloc);
    put_cost(alloc, &mut object, layout, outcome, cost, schedule, lines)?;
    Ok(object.into_value())
}

/// What a run with that outcome costs and then the outcome, on a line. Rounds are told where it is scheduled on some number of
/// processors, the most words where the costs have them, and what each line costs where that is asked for.
pub fn json_cost(
    alloc: Global,
    layout: &Layout,
    outcome: &Outcome,
    cost: &Cost,
    schedule: Option<u32>,
    lines: bool,
) -> Result<String, AllocError>
    // The line is exactly the facts of the costs and of the outcome, and read as JSON it is these facts again.
    ensures json { IfOk result
        (λ text. IsJson (spec.cost_facts layout.now (verdict_of outcome.now) cost.now schedule lines ∷ []) (string_bytes text)) }
{
    let facts = cost_value(alloc, layout, outcome, cost, schedule, lines)?;
    line_of(alloc, &facts)
}
