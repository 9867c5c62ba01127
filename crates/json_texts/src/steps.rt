//! A run that is told statement by statement.

ghost use Rattle.std.specs.Prelude.{◌≡◌, ◌∷◌, [], IfOk, OnOk, map, string_bytes};
ghost use Rattle.serde_json.specs.View.{view};
ghost use Rattle.json_texts.specs.Facts.{with_fields};
ghost use Rattle.json_texts.specs.Lines.{IsJson};
ghost use Rattle.json_texts.specs.Shown.{shown};
ghost use Rattle.journal.specs.Causes.{known_cause};
ghost use Rattle.journal.specs.Entries.{act_is, entry_is};
ghost use Rattle.journal.specs.Entries as entry;
ghost use Rattle.json_texts.specs.StepFacts as spec;

use crate::acts::acts_facts;
use crate::cause::put_known;
use crate::fault::{cell_text, put_fault};
use crate::own_locals::own_facts;
use crate::{Object, Value, line_of};
use help::{local_name, variable_name};
use journal::{Act, Cause, Change, Entry, LocalChange};
use pram_trees::{Layout, Location, Tree};
use std::alloc::{AllocError, Global};
use text_places::place_of;
use write_rules::Fault;

// A cell's value before and behind.
fn change_facts(alloc: Global, layout: &Layout, change: &Change) -> Result<Value, AllocError>
    ensures { IfOk result (λ v. view v ≡ spec.change_facts layout.now change.now) }
{
    let cell = cell_text(alloc, layout, change.cell)?;
    let mut object = Object::new(alloc);
    object.put_letters("cell", cell.bytes())?;
    object.put_value("before", change.before)?;
    object.put_value("after", change.after)?;
    Ok(object.into_value())
}

fn changes_facts(
    alloc: Global,
    layout: &Layout,
    changes: &[Change],
) -> Result<Vec<Value>, AllocError>
    ensures { IfOk result (λ list. map view list.items ≡ map (spec.change_facts layout.now) changes.now) }
{
    let mut list = Vec::new(alloc);
    for change in changes {
        list.push(change_facts(alloc, layout, change)?)?;
    }
    Ok(list)
}

// A uniform variable's value before and behind.
fn variable_facts(alloc: Global, tree: &Tree, change: &Change) -> Result<Value, AllocError>
    ensures { IfOk result (λ v. view v ≡ spec.variable_facts tree.now change.now) }
{
    let mut object = Object::new(alloc);
    object.put_count("variable", change.cell as u64)?;
    object.put_letters("name", variable_name(tree, change.cell))?;
    object.put_value("before", change.before)?;
    object.put_value("after", change.after)?;
    Ok(object.into_value())
}

fn variables_facts(alloc: Global, tree: &Tree, changes: &[Change]) -> Result<Vec<Value>, AllocError>
    ensures { IfOk result (λ list. map view list.items ≡ map (spec.variable_facts tree.now) changes.now) }
{
    let mut list = Vec::new(alloc);
    for change in changes {
        list.push(variable_facts(alloc, tree, change)?)?;
    }
    Ok(list)
}

// A processor's local before and behind a statement that stands at this offset.
fn local_facts(
    alloc: Global,
    tree: &Tree,
    at: u32,
    local: &LocalChange,
) -> Result<Value, AllocError>
    ensures { IfOk result (λ v. view v ≡ spec.local_facts tree.now at local.now) }
{
    let change = &local.change;
    let mut object = Object::new(alloc);
    object.put_value("processor", local.processor)?;
    object.put_letters("local", local_name(tree, at, change.cell))?;
    object.put_value("before", change.before)?;
    object.put_value("after", change.after)?;
    Ok(object.into_value())
}

fn locals_facts(
    alloc: Global,
    tree: &Tree,
    at: u32,
    locals: &[LocalChange],
) -> Result<Vec<Value>, AllocError>
    ensures { IfOk result (λ list. map view list.items ≡ map (spec.local_facts tree.now at) locals.now) }
{
    let mut list = Vec::new(alloc);
    for local in locals {
        list.push(local_facts(alloc, tree, at, local)?)?;
    }
    Ok(list)
}

// Where a statement stands that ran, who acted in it, and what it changed and printed.
#[derive(Clone, Copy)]
struct Ran<'a> {
    location: Location,
    acts: &'a [Act],
    cells: &'a [Change],
    variables: &'a [Change],
    locals: &'a [LocalChange],
    printed: &'a [i64],
}

// Where a statement stands in its line.
fn put_column(object: &mut Object, source: &[u8], location: Location) -> Result<(), AllocError>
    ensures { OnOk result (shown object.new ≡ with_fields (spec.column_field source.now location.offset ∷ []) (shown object.old)) }
{
    let place = place_of(source, location.offset as usize);
    object.put_count("column", place.column as u64)
}

fn put_ran(
    alloc: Global,
    object: &mut Object,
    layout: &Layout,
    tree: &Tree,
    source: &[u8],
    ran: &Ran<'_>,
) -> Result<(), AllocError>
    ensures { OnOk result (shown object.new ≡ with_fields (spec.told_fields layout.now tree.now source.now
        (entry.Ran ran.now.location (map act_is ran.now.acts.now) ran.now.cells.now ran.now.variables.now ran.now.locals.now
        ran.now.printed.now)) (shown object.old)) }
{
    let acts = acts_facts(alloc, layout, ran.acts)?;
    let changes = changes_facts(alloc, layout, ran.cells)?;
    let variables = variables_facts(alloc, tree, ran.variables)?;
    let locals = locals_facts(alloc, tree, ran.location.offset, ran.locals)?;
    object.put_count("line", u64::from(ran.location.line))?;
    put_column(object, source, ran.location)?;
    object.put_count("processors", ran.acts.len() as u64)?;
    object.put_list("acts", acts)?;
    object.put_list("changes", changes)?;
    object.put_list("variables", variables)?;
    object.put_list("locals", locals)?;
    object.put_values("printed", ran.printed)
}

// A statement that faulted, why, what each did up to there, and who met.
fn put_faulting(
    alloc: Global,
    object: &mut Object,
    layout: &Layout,
    fault: &Fault,
    cause: &Option<Cause>,
    acts: &[Act],
    met: &[i64],
) -> Result<(), AllocError>
    ensures { OnOk result (shown object.new ≡ with_fields
        (spec.faulting_fields layout.now fault.now (known_cause cause.now) (map act_is acts.now) met.now) (shown object.old)) }
{
    let acts = acts_facts(alloc, layout, acts)?;
    object.put_values("met", met)?;
    object.put_list("acts", acts)?;
    put_fault(alloc, object, layout, fault)?;
    put_known(alloc, object, layout, cause)
}

fn put_told(
    alloc: Global,
    object: &mut Object,
    layout: &Layout,
    tree: &Tree,
    source: &[u8],
    entry: &Entry,
) -> Result<(), AllocError>
    ensures { OnOk result (shown object.new
        ≡ with_fields (spec.told_fields layout.now tree.now source.now (entry_is entry.now)) (shown object.old)) }
{
    match entry {
        Entry::Ran {
            location,
            acts,
            cells,
            variables,
            locals,
            printed,
        } => {
            let ran = Ran {
                location: *location,
                acts,
                cells,
                variables,
                locals,
                printed,
            };
            put_ran(alloc, object, layout, tree, source, &ran)
        }
        Entry::Faulted {
            location,
            fault,
            cause,
            acts,
            met,
            locals,
        } => {
            let own = own_facts(alloc, tree, location.offset, locals)?;
            put_column(object, source, *location)?;
            object.put_list("locals", own)?;
            put_faulting(alloc, object, layout, fault, cause, acts, met)
        }
    }
}

// What is told of a statement, with its number.
fn step_facts(
    alloc: Global,
    layout: &Layout,
    tree: &Tree,
    source: &[u8],
    number: usize,
    entry: &Entry,
) -> Result<Value, AllocError>
    ensures { IfOk result (λ v. view v ≡ spec.step_facts layout.now tree.now source.now number (entry_is entry.now)) }
{
    let mut object = Object::new(alloc);
    object.put_count("step", number as u64)?;
    put_told(alloc, &mut object, layout, tree, source, entry)?;
    Ok(object.into_value())
}

/// An entry of this number, counted from 1, on a line:
/// `{"acts":[{"processor":"3","reads":["a[3]"],"write":"a[3]"}],"changes":[{"after":"7","before":"4","cell":"a[3]"}],"column":5,`
/// `"line":9,"locals":[],"printed":[],"processors":1,"step":5,"variables":[]}`, where `processor` is null of the one outside pardo and
/// `write` where it writes no cell; or at a fault
/// `{"acts":[..],"column":3,"kind":"read-conflict","line":4,"locals":[..],"met":["1","3"],"place":"a[1]","step":6}`, with what there is to
/// say of why: `array`, `subscript`, `low` and `high`; `operator` and `operands`; `low`, `high` and `procs`; or `writers`. A variable is
/// told as `{"after":"4","before":"8","name":"m","variable":0}`, by its name in the tree and its number in the order of declarations, and a
/// local as `{"after":"7","before":"3","local":"x","processor":"1"}`; at a fault what each local holds of those that met, or of the one
/// that faulted, as `{"local":"x","processor":"1","value":"3"}`.
pub fn json_step(
    alloc: Global,
    layout: &Layout,
    tree: &Tree,
    source: &[u8],
    number: usize,
    entry: &Entry,
) -> Result<String, AllocError>
    ensures json { IfOk result
        (λ text. IsJson (spec.step_facts layout.now tree.now source.now number (entry_is entry.now) ∷ []) (string_bytes text)) }
{
    let facts = step_facts(alloc, layout, tree, source, number, entry)?;
    line_of(alloc, &facts)
}
