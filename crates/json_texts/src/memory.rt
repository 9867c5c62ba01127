//! The values of cells.

ghost use Rattle.std.specs.Prelude.{◌≡◌, ◌++◌, IfOk, OnOk, drop, map, take};
ghost use Rattle.serde_json.specs.View.{view};
ghost use Rattle.json_texts.specs.Facts.{with_fields};
ghost use Rattle.json_texts.specs.Shown.{shown};
ghost use Rattle.memory_texts.specs.Chosen.{chosen};
ghost use Rattle.json_texts.specs.OutcomeFacts as spec;

use crate::{Object, Value};
use memory_texts::{Choice, is_chosen};
use pram_trees::Layout;
use std::alloc::{AllocError, Global};

/// Puts the bounds of an array.
pub(crate) fn put_bounds(object: &mut Object, bounds: &Option<(i64, i64)>) -> Result<(), AllocError>
    ensures { OnOk result (shown object.new ≡ with_fields (spec.bounds_fields bounds.now) (shown object.old)) }
{
    match bounds {
        None => Ok(()),
        Some((low, high)) => {
            object.put_value("low", *low)?;
            object.put_value("high", *high)
        }
    }
}

// A declaration, with the values of its cells.
fn entry_of(
    alloc: Global,
    name: &[u8],
    bounds: &Option<(i64, i64)>,
    values: &[i64],
) -> Result<Value, AllocError>
    ensures { IfOk result (λ v. view v ≡ spec.entry_facts record { name = name.now; bounds = bounds.now } values.now) }
{
    let mut object = Object::new(alloc);
    object.put_letters("name", name)?;
    object.put_values("values", values)?;
    put_bounds(&mut object, bounds)?;
    Ok(object.into_value())
}

// The first values, as many as that, and the others.
fn parted(values: &[i64], count: usize) -> (&[i64], &[i64])
    ensures first { result.0.now ≡ take count values.now }
    ensures others { result.1.now ≡ drop count values.now }
{
    if count < values.len() {
        values.split_at(count)
    } else {
        (values, &[])
    }
}

// Puts a declaration into a list, if it is chosen.
fn push_if_chosen(
    alloc: Global,
    list: &mut Vec<Value>,
    choice: Choice<'_>,
    name: &[u8],
    bounds: &Option<(i64, i64)>,
    values: &[i64],
) -> Result<(), AllocError>
    ensures { OnOk result (map view list.new.items ≡ map view list.old.items
        ++ spec.facts_if_chosen choice.entry record { name = name.now; bounds = bounds.now } values.now) }
{
    if !is_chosen(choice, name) {
        return Ok(());
    }
    let entry = entry_of(alloc, name, bounds, values)?;
    list.push(entry)?;
    Ok(())
}

/// Each chosen declaration with the values of its cells, in order.
pub(crate) fn memory_of(
    alloc: Global,
    layout: &Layout,
    choice: Choice<'_>,
    memory: &[i64],
) -> Result<Vec<Value>, AllocError>
    ensures { IfOk result (λ list. map view list.items ≡ spec.memory_facts (chosen choice.entry layout.now memory.now)) }
{
    let mut list = Vec::new(alloc);
    let mut rest = memory;
    for i in 0..layout.len() {
        let (values, behind) = parted(rest, layout.size(i) as usize);
        let bounds = layout.bounds(i);
        push_if_chosen(alloc, &mut list, choice, layout.name(i), &bounds, values)?;
        rest = behind;
    }
    Ok(list)
}
