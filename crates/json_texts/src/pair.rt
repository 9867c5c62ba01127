//! What is found of two programs on the same inputs.

ghost use Rattle.std.specs.Prelude.{◌≡◌, ◌∷◌, ◌++◌, [], IfOk, OnOk, map, string_bytes};
ghost use Rattle.serde_json.specs.View.{view};
ghost use Rattle.comparing.specs.Found.{differing_is, found_is};
ghost use Rattle.json_texts.specs.Facts.{with_fields};
ghost use Rattle.json_texts.specs.Lines.{Adds, IsJson};
ghost use Rattle.json_texts.specs.Shown.{shown};
ghost use Rattle.json_texts.specs.PairFacts as spec;

use crate::exploration::{put_asked, put_cells};
use crate::fault::{cell_text, put_fault};
use crate::line::push_line;
use crate::{Object, Value};
use comparing::{Comparison, Difference, Ending, FoundDifference};
use pram_check::Program;
use pram_trees::Layout;
use std::alloc::{AllocError, Global};

// A value, where there is one.
fn put_one(object: &mut Object, name: &str, value: Option<i64>) -> Result<(), AllocError>
    ensures { OnOk result (shown object.new ≡ with_fields (spec.value_fields name.now value) (shown object.old)) }
{
    match value {
        None => Ok(()),
        Some(value) => object.put_value(name, value),
    }
}

// The values of both programs.
fn put_both(object: &mut Object, first: Option<i64>, second: Option<i64>) -> Result<(), AllocError>
    ensures { OnOk result (shown object.new ≡ with_fields (spec.both_fields first second) (shown object.old)) }
{
    put_one(object, "first", first)?;
    put_one(object, "second", second)
}

fn put_ending(
    alloc: Global,
    object: &mut Object,
    layout: &Layout,
    ending: Ending,
) -> Result<(), AllocError>
    ensures { OnOk result (shown object.new ≡ with_fields (spec.ending_fields layout.now ending) (shown object.old)) }
{
    match ending {
        Ending::Ended => object.put_word("outcome", "ended"),
        Ending::Faulted(fault) => {
            object.put_word("outcome", "fault")?;
            put_fault(alloc, object, layout, &fault)
        }
        Ending::GoesOn => object.put_word("outcome", "goes on"),
    }
}

fn ending_facts(alloc: Global, layout: &Layout, ending: Ending) -> Result<Value, AllocError>
    ensures { IfOk result (λ v. view v ≡ spec.ending_facts layout.now ending) }
{
    let mut object = Object::new(alloc);
    put_ending(alloc, &mut object, layout, ending)?;
    Ok(object.into_value())
}

fn put_endings(
    alloc: Global,
    object: &mut Object,
    first_layout: &Layout,
    first: Ending,
    second_layout: &Layout,
    second: Ending,
) -> Result<(), AllocError>
    ensures { OnOk result (shown object.new
        ≡ with_fields (spec.endings_fields first_layout.now first second_layout.now second) (shown object.old)) }
{
    object.put_word("differs", "outcome")?;
    object.put("first", ending_facts(alloc, first_layout, first)?)?;
    object.put("second", ending_facts(alloc, second_layout, second)?)
}

fn put_output(
    object: &mut Object,
    item: u64,
    first: Option<i64>,
    second: Option<i64>,
) -> Result<(), AllocError>
    ensures { OnOk result (shown object.new ≡ with_fields (spec.output_fields item first second) (shown object.old)) }
{
    object.put_word("differs", "output")?;
    object.put_large("item", u128::from(item))?;
    put_both(object, first, second)
}

fn put_cell(
    alloc: Global,
    object: &mut Object,
    layout: &Layout,
    cell: u64,
    first: Option<i64>,
    second: Option<i64>,
) -> Result<(), AllocError>
    ensures { OnOk result (shown object.new ≡ with_fields (spec.cell_fields layout.now cell first second) (shown object.old)) }
{
    let name = cell_text(alloc, layout, cell as usize)?;
    object.put_word("differs", "cell")?;
    object.put_letters("cell", name.bytes())?;
    put_both(object, first, second)
}

// More than the limit.
fn put_excess(object: &mut Object, what: &str, taken: u64, limit: u64) -> Result<(), AllocError>
    ensures { OnOk result (shown object.new ≡ with_fields (spec.excess_fields what.now taken limit) (shown object.old)) }
{
    object.put_word("differs", what)?;
    object.put_large("taken", u128::from(taken))?;
    object.put_large("limit", u128::from(limit))
}

fn put_difference(
    alloc: Global,
    object: &mut Object,
    first_layout: &Layout,
    second_layout: &Layout,
    difference: &Difference,
) -> Result<(), AllocError>
    ensures { OnOk result (shown object.new
        ≡ with_fields (spec.difference_fields first_layout.now second_layout.now difference.now) (shown object.old)) }
{
    match *difference {
        Difference::Endings { first, second } => {
            put_endings(alloc, object, first_layout, first, second_layout, second)
        }
        Difference::Output {
            item,
            first,
            second,
        } => put_output(object, item, first, second),
        Difference::Cell {
            cell,
            first,
            second,
        } => put_cell(alloc, object, first_layout, cell, first, second),
        Difference::Time { taken, limit } => put_excess(object, "time", taken, limit),
        Difference::Work { taken, limit } => put_excess(object, "work", taken, limit),
    }
}

// An input, and what differs on it.
fn put_differing(
    alloc: Global,
    object: &mut Object,
    first: &Layout,
    second: &Layout,
    found: &FoundDifference,
) -> Result<(), AllocError>
    ensures { OnOk result (shown object.new
        ≡ with_fields (spec.differing_fields first.now second.now (differing_is found.now)) (shown object.old)) }
{
    object.put_values("input", found.input.as_slice())?;
    put_difference(alloc, object, first, second, &found.difference)
}

fn differing_value(
    alloc: Global,
    first: &Layout,
    second: &Layout,
    found: &FoundDifference,
) -> Result<Value, AllocError>
    ensures { IfOk result (λ v. view v ≡ spec.differing_facts first.now second.now (differing_is found.now)) }
{
    let mut object = Object::new(alloc);
    put_differing(alloc, &mut object, first, second, found)?;
    Ok(object.into_value())
}

// The line of an input on which they differ.
fn push_differing(
    alloc: Global,
    text: &mut String,
    first: &Layout,
    second: &Layout,
    found: &FoundDifference,
) -> Result<(), AllocError>
    ensures json { OnOk result (Adds (spec.differing_facts first.now second.now (differing_is found.now) ∷ [])
        (string_bytes text.old) (string_bytes text.new)) }
{
    let facts = differing_value(alloc, first, second, found)?;
    push_line(alloc, text, &facts)
}

// The lines of the inputs on which they differ.
fn differing_text(
    alloc: Global,
    first: &Layout,
    second: &Layout,
    told: &[FoundDifference],
) -> Result<String, AllocError>
    ensures json { IfOk result (λ text. IsJson (map (spec.differing_facts first.now second.now) (map differing_is told.now))
        (string_bytes text)) }
{
    let mut text = String::new(alloc);
    for found in told {
        push_differing(alloc, &mut text, first, second, found)?;
    }
    Ok(text)
}

// How many inputs are told, where some are left out.
fn put_told(object: &mut Object, comparison: &Comparison) -> Result<(), AllocError>
    ensures { OnOk result (shown object.new ≡ with_fields (spec.told_fields (found_is comparison.now)) (shown object.old)) }
{
    let told = comparison.told.len() as u64;
    if told < comparison.counting - comparison.same {
        object.put_large("told", u128::from(told))
    } else {
        Ok(())
    }
}

/// The first of those that are told.
pub(crate) fn put_first(
    alloc: Global,
    object: &mut Object,
    first: &Layout,
    second: &Layout,
    told: &[FoundDifference],
) -> Result<(), AllocError>
    ensures { OnOk result (shown object.new
        ≡ with_fields (spec.first_fields first.now second.now (map differing_is told.now)) (shown object.old)) }
{
    match told {
        [] => Ok(()),
        [found, ..] => put_differing(alloc, object, first, second, found),
    }
}

// Both.
fn put_found(
    alloc: Global,
    object: &mut Object,
    first: &Layout,
    second: &Layout,
    comparison: &Comparison,
) -> Result<(), AllocError>
    ensures { OnOk result (shown object.new
        ≡ with_fields (spec.found_fields first.now second.now (found_is comparison.now)) (shown object.old)) }
{
    put_told(object, comparison)?;
    put_first(alloc, object, first, second, &comparison.told)
}

// How many inputs count, where there is a precondition, and how many cells are drawn.
fn put_head(
    object: &mut Object,
    precondition: &Option<Program>,
    cells: Option<u32>,
    comparison: &Comparison,
) -> Result<(), AllocError>
    ensures { OnOk result (shown object.new
        ≡ with_fields (spec.head_fields precondition.now cells (found_is comparison.now)) (shown object.old)) }
{
    put_asked(object, "counting", precondition, comparison.counting)?;
    put_cells(object, cells)
}

// What is told behind the counts of all.
fn put_behind(
    alloc: Global,
    object: &mut Object,
    first: &Layout,
    second: &Layout,
    precondition: &Option<Program>,
    cells: Option<u32>,
    comparison: &Comparison,
) -> Result<(), AllocError>
    ensures { OnOk result (shown object.new ≡ with_fields (spec.head_fields precondition.now cells (found_is comparison.now)
        ++ spec.found_fields first.now second.now (found_is comparison.now)) (shown object.old)) }
{
    put_head(object, precondition, cells, comparison)?;
    put_found(alloc, object, first, second, comparison)
}

fn whole_value(
    alloc: Global,
    first: &Layout,
    second: &Layout,
    precondition: &Option<Program>,
    cells: Option<u32>,
    comparison: &Comparison,
) -> Result<Value, AllocError>
    ensures { IfOk result (λ v. view v ≡ spec.whole_facts first.now second.now precondition.now cells (found_is comparison.now)) }
{
    let mut object = Object::new(alloc);
    object.put_large("inputs", u128::from(comparison.inputs))?;
    object.put_large("same", u128::from(comparison.same))?;
    put_behind(
        alloc,
        &mut object,
        first,
        second,
        precondition,
        cells,
        comparison,
    )?;
    Ok(object.into_value())
}

fn push_whole(
    alloc: Global,
    text: &mut String,
    first: &Layout,
    second: &Layout,
    precondition: &Option<Program>,
    cells: Option<u32>,
    comparison: &Comparison,
) -> Result<(), AllocError>
    ensures json { OnOk result (Adds (spec.whole_facts first.now second.now precondition.now cells (found_is comparison.now) ∷ [])
        (string_bytes text.old) (string_bytes text.new)) }
{
    let facts = whole_value(alloc, first, second, precondition, cells, comparison)?;
    push_line(alloc, text, &facts)
}

/// What is found of two programs on the same inputs: a line for each input that is told, with what differs on it, as
/// `{"differs":"output","first":"3","input":["2","1"],"item":1,"second":"2"}`; and one for the whole, as `{"inputs":625,"same":625}`,
/// with `counting`, how many count, where there is a precondition; with `cells`, how many are drawn, where inputs are; with the members of the
/// first line too where there is any; and with `told`, the number of these lines, where the programs differ on more inputs. The layouts are
/// the shared declarations of the two programs.
pub fn json_pair(
    alloc: Global,
    first: &Layout,
    second: &Layout,
    precondition: &Option<Program>,
    cells: Option<u32>,
    comparison: &Comparison,
) -> Result<String, AllocError>
    // The lines are exactly the facts of two programs on the same inputs, and read as JSON each line is these facts
    // again.
    ensures json { IfOk result (λ text.
        IsJson (spec.pair_facts first.now second.now precondition.now cells (found_is comparison.now)) (string_bytes text)) }
{
    let mut text = differing_text(alloc, first, second, &comparison.told)?;
    push_whole(
        alloc,
        &mut text,
        first,
        second,
        precondition,
        cells,
        comparison,
    )?;
    Ok(text)
}
