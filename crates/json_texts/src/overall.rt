//! What holds of a program's runs on all inputs of a scope.

ghost use Rattle.std.specs.Prelude.{◌≡◌, ◌∷◌, ◌++◌, [], IfOk, OnOk, map, string_bytes};
ghost use Rattle.serde_json.specs.View.{view};
ghost use Rattle.json_texts.specs.Facts.{with_fields};
ghost use Rattle.json_texts.specs.Lines.{IsJson};
ghost use Rattle.json_texts.specs.Shown.{shown};
ghost use Rattle.json_texts.specs.OverallFacts as spec;

use crate::memory::put_bounds;
use crate::reasons::{faults_of, put_interval};
use crate::{Object, Value, line_of};
use all_inputs::{Ending, Overall, Scope, Undecided, only_fault};
use intervals::Interval;
use pram_trees::Layout;
use std::alloc::{AllocError, Global};

fn scope_facts(alloc: Global, scope: Scope) -> Result<Value, AllocError>
    ensures { IfOk result (λ v. view v ≡ spec.scope_facts scope) }
{
    let mut object = Object::new(alloc);
    object.put_count("values", u64::from(scope.values))?;
    put_interval(&mut object, scope.of)?;
    Ok(object.into_value())
}

// How many statements a run has, at least and at most.
fn time_facts(alloc: Global, least: u32, most: u32) -> Result<Value, AllocError>
    ensures { IfOk result (λ v. view v ≡ spec.time_facts least most) }
{
    let mut object = Object::new(alloc);
    object.put_count("least", u64::from(least))?;
    object.put_count("greatest", u64::from(most))?;
    Ok(object.into_value())
}

// A declaration, with the interval of the values of its cells.
fn declared_facts(
    alloc: Global,
    name: &[u8],
    bounds: &Option<(i64, i64)>,
    interval: Interval,
) -> Result<Value, AllocError>
    ensures { IfOk result (λ v. view v ≡ spec.declared_facts record { name = name.now; bounds = bounds.now } interval) }
{
    let mut object = Object::new(alloc);
    object.put_letters("name", name)?;
    put_interval(&mut object, interval)?;
    put_bounds(&mut object, bounds)?;
    Ok(object.into_value())
}

// Puts a declaration with its interval into a list.
fn push_declared(
    alloc: Global,
    list: &mut Vec<Value>,
    name: &[u8],
    bounds: &Option<(i64, i64)>,
    interval: Interval,
) -> Result<(), AllocError>
    ensures { OnOk result (map view list.new.items ≡ map view list.old.items
        ++ spec.declared_facts record { name = name.now; bounds = bounds.now } interval ∷ []) }
{
    let facts = declared_facts(alloc, name, bounds, interval)?;
    list.push(facts)?;
    Ok(())
}

// Each declaration with its interval, in order.
#[tactic(auto, using(crate::proofs::IntervalFacts::memory_start, crate::proofs::IntervalFacts::memory_end))]
fn memory_facts(
    alloc: Global,
    layout: &Layout,
    intervals: &[Interval],
) -> Result<Vec<Value>, AllocError>
    ensures { IfOk result (λ list. map view list.items ≡ spec.memory_facts layout.now intervals.now) }
{
    let mut list = Vec::new(alloc);
    let count = layout.len().min(intervals.len());
    for i in 0..count {
        let bounds = layout.bounds(i);
        push_declared(alloc, &mut list, layout.name(i), &bounds, intervals[i])?;
    }
    Ok(list)
}

// What is known of the runs that end.
fn put_ending(
    alloc: Global,
    object: &mut Object,
    layout: &Layout,
    ending: &Ending,
) -> Result<(), AllocError>
    ensures { OnOk result (shown object.new ≡ with_fields (spec.ending_fields layout.now ending.now) (shown object.old)) }
{
    let time = time_facts(alloc, ending.least, ending.most)?;
    let memory = memory_facts(alloc, layout, ending.declared.as_slice())?;
    object.put("time", time)?;
    object.put_list("memory", memory)
}

// That, if any may.
fn put_end(
    alloc: Global,
    object: &mut Object,
    layout: &Layout,
    end: &Option<Ending>,
) -> Result<(), AllocError>
    ensures { OnOk result (shown object.new ≡ with_fields (spec.end_fields layout.now end.now) (shown object.old)) }
{
    match end {
        None => Ok(()),
        Some(ending) => put_ending(alloc, object, layout, ending),
    }
}

// What is told of all runs.
fn put_told(
    alloc: Global,
    object: &mut Object,
    layout: &Layout,
    overall: &Overall,
) -> Result<(), AllocError>
    ensures { OnOk result (shown object.new ≡ with_fields (spec.told_fields layout.now overall.now) (shown object.old)) }
{
    let faults = faults_of(alloc, layout, overall.told.lines())?;
    object.put_list("faults", faults)?;
    object.put("each_faults", Value::Bool(only_fault(overall).is_some()))?;
    object.put("may_go_on", Value::Bool(overall.told.may_go_on()))
}

fn put_overall(
    alloc: Global,
    object: &mut Object,
    layout: &Layout,
    scope: Scope,
    overall: &Overall,
) -> Result<(), AllocError>
    ensures { OnOk result (shown object.new
        ≡ with_fields (spec.overall_fields layout.now scope overall.now) (shown object.old)) }
{
    let facts = scope_facts(alloc, scope)?;
    object.put("scope", facts)?;
    put_told(alloc, object, layout, overall)?;
    put_end(alloc, object, layout, &overall.end)
}

fn overall_value(
    alloc: Global,
    layout: &Layout,
    scope: Scope,
    overall: &Overall,
) -> Result<Value, AllocError>
    ensures { IfOk result (λ v. view v ≡ spec.overall_facts layout.now scope overall.now) }
{
    let mut object = Object::new(alloc);
    put_overall(alloc, &mut object, layout, scope, overall)?;
    Ok(object.into_value())
}

/// What holds of a program's runs on all inputs of a scope, on a line, as
/// `{"each_faults":false,"faults":[{"kind":"divide-by-zero","line":4,"reason":{"left":{"greatest":"10","least":"10"},"operator":"div",
/// "right":{"greatest":"5","least":"0"}}}],"may_go_on":false,"memory":[{"greatest":"5","least":"0","name":"s"}],
/// "scope":{"greatest":"5","least":"0","values":1},"time":{"greatest":1,"least":1}}`. `each_faults` says whether each run has the one fault
/// that is told, and time and memory stand there where a run may end. A reason has the operator with `left` and `right` or with `operand`,
/// the `subscript` and whose it is as `subscript_of`, the bounds of a pardo as `first` and `last`, or `"shared":true`.
pub fn json_overall(
    alloc: Global,
    layout: &Layout,
    scope: Scope,
    overall: &Overall,
) -> Result<String, AllocError>
    // The line is exactly the facts of what holds on all inputs of the scope, and read as JSON it is these facts again.
    ensures json { IfOk result (λ text. IsJson (spec.overall_facts layout.now scope overall.now ∷ []) (string_bytes text)) }
{
    let facts = overall_value(alloc, layout, scope, overall)?;
    line_of(alloc, &facts)
}

fn why_facts(alloc: Global, why: &str, line: u32) -> Result<Value, AllocError>
    ensures { IfOk result (λ v. view v ≡ spec.why_facts why.now line) }
{
    let mut object = Object::new(alloc);
    object.put_word("why", why)?;
    object.put_count("line", u64::from(line))?;
    Ok(object.into_value())
}

// Where too little is known, and why.
fn reached_facts(alloc: Global, undecided: Undecided) -> Result<Value, AllocError>
    ensures { IfOk result (λ v. view v ≡ spec.reached_facts undecided) }
{
    match undecided {
        Undecided::OpenBounds { line } => why_facts(alloc, "open-bounds", line),
        Undecided::Restless { line } => why_facts(alloc, "restless", line),
    }
}

fn undecided_value(alloc: Global, scope: Scope, undecided: Undecided) -> Result<Value, AllocError>
    ensures { IfOk result (λ v. view v ≡ spec.undecided_facts scope undecided) }
{
    let reached = reached_facts(alloc, undecided)?;
    let facts = scope_facts(alloc, scope)?;
    let mut object = Object::new(alloc);
    object.put("scope", facts)?;
    object.put("undecided", reached)?;
    Ok(object.into_value())
}

/// That too little is known of the runs on all inputs of a scope, on a line, as
/// `{"scope":{"greatest":"5","least":"0","values":1},"undecided":{"line":9,"why":"open-bounds"}}`, or why `restless`.
pub fn json_undecided(
    alloc: Global,
    scope: Scope,
    undecided: Undecided,
) -> Result<String, AllocError>
    // The line is exactly the scope, why nothing is told and the line where, and read as JSON it is these facts again.
    ensures json { IfOk result (λ text. IsJson (spec.undecided_facts scope undecided ∷ []) (string_bytes text)) }
{
    let facts = undecided_value(alloc, scope, undecided)?;
    line_of(alloc, &facts)
}
