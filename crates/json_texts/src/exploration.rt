//! What is found on the inputs of a scope.

ghost use Rattle.std.specs.Prelude.{◌≡◌, ◌∷◌, ◌++◌, [], IfOk, OnOk, map, string_bytes};
ghost use Rattle.std.specs.Option.{option_map};
ghost use Rattle.serde_json.specs.View.{view};
ghost use Rattle.scopes.specs.Found.{found_is, met_is, values_of};
ghost use Rattle.json_texts.specs.Facts.{with_fields};
ghost use Rattle.json_texts.specs.Lines.{IsJson};
ghost use Rattle.json_texts.specs.Shown.{shown};
ghost use Rattle.json_texts.specs.ExplorationFacts as spec;

use crate::fault::put_fault;
use crate::{Object, Value, line_of};
use pram_check::Program;
use pram_trees::Layout;
use scopes::{Findings, FoundFault, Span, Specification};
use std::alloc::{AllocError, Global};

// A fault, and the input on which it was met.
fn met_facts(alloc: Global, layout: &Layout, found: &FoundFault) -> Result<Value, AllocError>
    ensures { IfOk result (λ v. view v ≡ spec.met_facts layout.now (met_is found.now)) }
{
    let mut object = Object::new(alloc);
    object.put_values("input", found.input.as_slice())?;
    put_fault(alloc, &mut object, layout, &found.fault)?;
    Ok(object.into_value())
}

fn all_met(alloc: Global, layout: &Layout, faults: &[FoundFault]) -> Result<Vec<Value>, AllocError>
    ensures { IfOk result (λ list. map view list.items ≡ map (spec.met_facts layout.now) (map met_is faults.now)) }
{
    let mut list = Vec::new(alloc);
    for found in faults {
        list.push(met_facts(alloc, layout, found)?)?;
    }
    Ok(list)
}

fn span_facts(alloc: Global, span: Span) -> Result<Value, AllocError>
    ensures { IfOk result (λ v. view v ≡ spec.span_facts span) }
{
    let mut object = Object::new(alloc);
    object.put_large("least", u128::from(span.least))?;
    object.put_large("greatest", u128::from(span.greatest))?;
    Ok(object.into_value())
}

// From the least to the greatest, where there are any.
fn put_span(
    alloc: Global,
    object: &mut Object,
    name: &str,
    span: Option<Span>,
) -> Result<(), AllocError>
    ensures { OnOk result (shown object.new ≡ with_fields (spec.span_fields name.now span) (shown object.old)) }
{
    match span {
        None => Ok(()),
        Some(span) => object.put(name, span_facts(alloc, span)?),
    }
}

fn put_counts(
    alloc: Global,
    object: &mut Object,
    layout: &Layout,
    findings: &Findings,
) -> Result<(), AllocError>
    ensures { OnOk result (shown object.new
        ≡ with_fields (spec.count_fields layout.now (found_is findings.now)) (shown object.old)) }
{
    let faults = all_met(alloc, layout, findings.faults.as_slice())?;
    object.put_large("inputs", u128::from(findings.inputs))?;
    object.put_large("ended", u128::from(findings.ended))?;
    object.put_large("faulted", u128::from(findings.faulted))?;
    object.put_large("go_on", u128::from(findings.go_on))?;
    object.put_list("faults", faults)
}

fn put_costs(alloc: Global, object: &mut Object, findings: &Findings) -> Result<(), AllocError>
    ensures { OnOk result (shown object.new ≡ with_fields (spec.cost_fields (found_is findings.now)) (shown object.old)) }
{
    put_span(alloc, object, "time", findings.time)?;
    put_span(alloc, object, "work", findings.work)
}

/// A number that is told where there is such a program.
pub(crate) fn put_asked(
    object: &mut Object,
    name: &str,
    asked: &Option<Program>,
    number: u64,
) -> Result<(), AllocError>
    ensures { OnOk result (shown object.new ≡ with_fields (spec.asked_fields name.now asked.now number) (shown object.old)) }
{
    match asked {
        None => Ok(()),
        Some(_) => object.put_large(name, u128::from(number)),
    }
}

fn put_specified(
    object: &mut Object,
    specification: &Specification,
    findings: &Findings,
) -> Result<(), AllocError>
    ensures { OnOk result (shown object.new
        ≡ with_fields (spec.specified_fields specification.now (found_is findings.now)) (shown object.old)) }
{
    put_asked(
        object,
        "counting",
        &specification.precondition,
        findings.counting,
    )?;
    put_asked(
        object,
        "failed",
        &specification.postcondition,
        findings.failed,
    )
}

// The first of some inputs, if there is one.
fn put_input(object: &mut Object, name: &str, input: &Option<Vec<i64>>) -> Result<(), AllocError>
    ensures { OnOk result (shown object.new
        ≡ with_fields (spec.input_fields name.now (option_map values_of input.now)) (shown object.old)) }
{
    match input {
        None => Ok(()),
        Some(input) => object.put_values(name, input.as_slice()),
    }
}

fn put_firsts(object: &mut Object, findings: &Findings) -> Result<(), AllocError>
    ensures { OnOk result (shown object.new ≡ with_fields (spec.first_fields (found_is findings.now)) (shown object.old)) }
{
    put_input(object, "goes_on_at", &findings.goes_on_at)?;
    put_input(object, "fails_at", &findings.fails_at)
}

fn put_firsts_and_costs(
    alloc: Global,
    object: &mut Object,
    findings: &Findings,
) -> Result<(), AllocError>
    ensures { OnOk result (shown object.new
        ≡ with_fields (spec.first_fields (found_is findings.now) ++ spec.cost_fields (found_is findings.now)) (shown object.old)) }
{
    put_firsts(object, findings)?;
    put_costs(alloc, object, findings)
}

// What is told behind the counts of all.
fn put_behind(
    alloc: Global,
    object: &mut Object,
    specification: &Specification,
    findings: &Findings,
) -> Result<(), AllocError>
    ensures { OnOk result (shown object.new
        ≡ with_fields (spec.behind_fields specification.now (found_is findings.now)) (shown object.old)) }
{
    put_specified(object, specification, findings)?;
    put_firsts_and_costs(alloc, object, findings)
}

fn put_findings(
    alloc: Global,
    object: &mut Object,
    layout: &Layout,
    specification: &Specification,
    findings: &Findings,
) -> Result<(), AllocError>
    ensures { OnOk result (shown object.new ≡ with_fields (spec.count_fields layout.now (found_is findings.now)
        ++ spec.behind_fields specification.now (found_is findings.now)) (shown object.old)) }
{
    put_counts(alloc, object, layout, findings)?;
    put_behind(alloc, object, specification, findings)
}

/// How many cells are drawn, where inputs are.
pub(crate) fn put_cells(object: &mut Object, cells: Option<u32>) -> Result<(), AllocError>
    ensures { OnOk result (shown object.new ≡ with_fields (spec.cells_fields cells) (shown object.old)) }
{
    match cells {
        None => Ok(()),
        Some(count) => object.put_large("cells", u128::from(count)),
    }
}

fn put_told(
    alloc: Global,
    object: &mut Object,
    layout: &Layout,
    specification: &Specification,
    cells: Option<u32>,
    findings: &Findings,
) -> Result<(), AllocError>
    ensures { OnOk result (shown object.new ≡ with_fields (spec.cells_fields cells ++ (spec.count_fields layout.now (found_is findings.now)
        ++ spec.behind_fields specification.now (found_is findings.now))) (shown object.old)) }
{
    put_cells(object, cells)?;
    put_findings(alloc, object, layout, specification, findings)
}

fn exploration_value(
    alloc: Global,
    layout: &Layout,
    specification: &Specification,
    cells: Option<u32>,
    findings: &Findings,
) -> Result<Value, AllocError>
    ensures { IfOk result (λ v. view v ≡ spec.exploration_facts layout.now specification.now cells (found_is findings.now)) }
{
    let mut object = Object::new(alloc);
    put_told(alloc, &mut object, layout, specification, cells, findings)?;
    Ok(object.into_value())
}

/// What is found on the inputs of a scope, on a line, as
/// `{"ended":610,"faulted":15,"faults":[{"input":["3","1"],"kind":"read-conflict","line":4,"place":"a[1]"}],"go_on":0,"inputs":625,
/// "time":{"greatest":17,"least":9},"work":{"greatest":40,"least":12}}`. Time and work stand there where any run ends, and where one goes
/// on `goes_on_at`, the first input on which it does. With a precondition `counting` stands there. With a postcondition `failed` does, and
/// where a run fails `fails_at`, the first input on which it does. Where inputs are drawn, `cells` is how many values each has.
pub fn json_exploration(
    alloc: Global,
    layout: &Layout,
    specification: &Specification,
    cells: Option<u32>,
    findings: &Findings,
) -> Result<String, AllocError>
    // The line is exactly the facts of what is found, by what is asked of the inputs, and read as JSON it is these
    // facts again.
    ensures json { IfOk result
        (λ text. IsJson (spec.exploration_facts layout.now specification.now cells (found_is findings.now) ∷ []) (string_bytes text)) }
{
    let facts = exploration_value(alloc, layout, specification, cells, findings)?;
    line_of(alloc, &facts)
}
