//! What processors did in a statement.

ghost use Rattle.std.specs.Prelude.{◌≡◌, IfOk, map};
ghost use Rattle.serde_json.specs.View.{view};
ghost use Rattle.json_texts.specs.Facts.{letters};
ghost use Rattle.program_texts.specs.Shown as texts;
ghost use Rattle.journal.specs.Entries.{act_is};
ghost use Rattle.json_texts.specs.ActFacts as spec;

use crate::fault::cell_text;
use crate::values::value_of;
use crate::{Object, Value};
use journal::{Act, Reading};
use pram_trees::Layout;
use std::alloc::{AllocError, Global};

// A cell by its name.
fn cell_value(alloc: Global, layout: &Layout, cell: u32) -> Result<Value, AllocError>
    ensures { IfOk result (λ v. view v ≡ letters (texts.cell_text layout.now cell)) }
{
    let name = cell_text(alloc, layout, cell as usize)?;
    let text = String::from_utf8_lossy(alloc, name.bytes())?;
    Ok(Value::String(text))
}

fn cells_value(alloc: Global, layout: &Layout, cells: &[u32]) -> Result<Vec<Value>, AllocError>
    ensures { IfOk result (λ list. map view list.items ≡ map (spec.cell_fact layout.now) cells.now) }
{
    let mut list = Vec::new(alloc);
    for cell in cells {
        list.push(cell_value(alloc, layout, *cell)?)?;
    }
    Ok(list)
}

// A cell, where there is one.
fn write_value(alloc: Global, layout: &Layout, cell: Option<u32>) -> Result<Value, AllocError>
    ensures { IfOk result (λ v. view v ≡ spec.write_fact layout.now cell) }
{
    match cell {
        Some(cell) => cell_value(alloc, layout, cell),
        None => Ok(Value::Null),
    }
}

// An index, where there is one.
fn processor_value(alloc: Global, processor: Option<i64>) -> Result<Value, AllocError>
    ensures { IfOk result (λ v. view v ≡ spec.processor_fact processor) }
{
    match processor {
        Some(index) => value_of(alloc, index),
        None => Ok(Value::Null),
    }
}

// A value, where there is one.
fn written_value(alloc: Global, written: Option<i64>) -> Result<Value, AllocError>
    ensures { IfOk result (λ v. view v ≡ spec.written_fact written) }
{
    match written {
        Some(value) => value_of(alloc, value),
        None => Ok(Value::Null),
    }
}

fn positions_value(alloc: Global, readings: &[Reading]) -> Result<Vec<Value>, AllocError>
    ensures { IfOk result (λ list. map view list.items ≡ map spec.position_fact readings.now) }
{
    let mut list = Vec::new(alloc);
    for reading in readings {
        list.push(Value::from(reading.position as u64))?;
    }
    Ok(list)
}

fn values_value(alloc: Global, readings: &[Reading]) -> Result<Vec<Value>, AllocError>
    ensures { IfOk result (λ list. map view list.items ≡ map spec.value_fact readings.now) }
{
    let mut list = Vec::new(alloc);
    for reading in readings {
        list.push(value_of(alloc, reading.value)?)?;
    }
    Ok(list)
}

// What one processor did.
fn act_facts(alloc: Global, layout: &Layout, act: &Act) -> Result<Value, AllocError>
    ensures { IfOk result (λ v. view v ≡ spec.act_facts layout.now (act_is act.now)) }
{
    let processor = processor_value(alloc, act.processor)?;
    let reads = cells_value(alloc, layout, &act.reads)?;
    let positions = positions_value(alloc, &act.readings)?;
    let values = values_value(alloc, &act.readings)?;
    let write = write_value(alloc, layout, act.write)?;
    let written = written_value(alloc, act.written)?;
    let mut object = Object::new(alloc);
    object.put("processor", processor)?;
    object.put_list("reads", reads)?;
    object.put_list("positions", positions)?;
    object.put_list("values", values)?;
    object.put("write", write)?;
    object.put("written", written)?;
    Ok(object.into_value())
}

/// What each processor did, in order.
pub(crate) fn acts_facts(
    alloc: Global,
    layout: &Layout,
    acts: &[Act],
) -> Result<Vec<Value>, AllocError>
    ensures { IfOk result (λ list. map view list.items ≡ map (spec.act_facts layout.now) (map act_is acts.now)) }
{
    let mut list = Vec::new(alloc);
    for act in acts {
        list.push(act_facts(alloc, layout, act)?)?;
    }
    Ok(list)
}
