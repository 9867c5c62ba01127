//! Why statements fault.

ghost use Rattle.std.specs.Prelude.{◌≡◌, ◌∷◌, [], IfOk, OnOk, map, slice_get};
ghost use Rattle.serde_json.specs.View.{view};
ghost use Rattle.json_texts.specs.Facts.{with_fields};
ghost use Rattle.json_texts.specs.Shown.{shown};
ghost use Rattle.journal.specs.Causes.{cause_is, known_cause};
ghost use Rattle.journal.specs.Causes as told;
ghost use Rattle.json_texts.specs.CauseFacts as spec;

use crate::{Object, Value};
use journal::Cause;
use pram_printer::{binary_text, prefix_text};
use pram_trees::{Binary, Layout, Prefix, Range};
use std::alloc::{AllocError, Global};
use write_rules::Write;

// A write by its processor and its value.
fn write_facts(alloc: Global, write: &Write) -> Result<Value, AllocError>
    ensures { IfOk result (λ v. view v ≡ spec.write_facts write.now) }
{
    let mut object = Object::new(alloc);
    object.put_value("processor", write.processor)?;
    object.put_value("value", write.value)?;
    Ok(object.into_value())
}

fn writes_facts(alloc: Global, writes: &[Write]) -> Result<Vec<Value>, AllocError>
    ensures { IfOk result (λ list. map view list.items ≡ map spec.write_facts writes.now) }
{
    let mut list = Vec::new(alloc);
    for write in writes {
        list.push(write_facts(alloc, write)?)?;
    }
    Ok(list)
}

// An operation on two values.
fn put_between(
    object: &mut Object,
    left: i64,
    operator: Binary,
    right: i64,
) -> Result<(), AllocError>
    ensures { OnOk result (shown object.new ≡ with_fields (spec.why_fields [] (told.Between left operator right)) (shown object.old)) }
{
    object.put_letters("operator", binary_text(operator))?;
    object.put_values("operands", &[left, right])
}

// An operation on one value.
fn put_before(object: &mut Object, operator: Prefix, operand: i64) -> Result<(), AllocError>
    ensures { OnOk result (shown object.new ≡ with_fields (spec.why_fields [] (told.Before operator operand)) (shown object.old)) }
{
    object.put_letters("operator", prefix_text(operator))?;
    object.put_values("operands", &[operand])
}

// A subscript that an array has not.
fn put_array(
    object: &mut Object,
    name: &[u8],
    subscript: &i64,
    range: &Range,
) -> Result<(), AllocError>
    ensures { OnOk result (shown object.new ≡ with_fields (spec.array_fields name.now subscript.now range.now.low range.now.high)
        (shown object.old)) }
{
    object.put_letters("array", name)?;
    object.put_value("subscript", *subscript)?;
    object.put_value("low", range.low)?;
    object.put_value("high", range.high)
}

// That of a declaration.
#[tactic(auto, using(crate::proofs::CauseLemmas::none_beyond))]
fn put_beyond(
    object: &mut Object,
    layout: &Layout,
    entry: usize,
    subscript: &i64,
) -> Result<(), AllocError>
    ensures { OnOk result (shown object.new ≡ with_fields (spec.beyond_fields subscript.now (slice_get layout.now entry))
        (shown object.old)) }
{
    if entry < layout.len() {
        let range = layout.range(entry);
        put_array(object, layout.name(entry), subscript, &range)
    } else {
        Ok(())
    }
}

// The bounds of a pardo, and how many processors there may be.
fn put_wide(object: &mut Object, low: i64, high: i64, procs: u32) -> Result<(), AllocError>
    ensures { OnOk result (shown object.new ≡ with_fields (spec.why_fields [] (told.Wide low high procs)) (shown object.old)) }
{
    object.put_value("low", low)?;
    object.put_value("high", high)?;
    object.put_count("procs", u64::from(procs))
}

// The writes of a cell.
fn put_writers(alloc: Global, object: &mut Object, writes: &[Write]) -> Result<(), AllocError>
    ensures { OnOk result (shown object.new ≡ with_fields (spec.why_fields [] (told.Writing writes.now)) (shown object.old)) }
{
    let writers = writes_facts(alloc, writes)?;
    object.put_list("writers", writers)
}

fn put_why(
    alloc: Global,
    object: &mut Object,
    layout: &Layout,
    cause: &Cause,
) -> Result<(), AllocError>
    ensures { OnOk result (shown object.new ≡ with_fields (spec.why_fields layout.now (cause_is cause.now)) (shown object.old)) }
{
    match cause {
        Cause::Between {
            left,
            operator,
            right,
        } => put_between(object, *left, *operator, *right),
        Cause::Before { operator, operand } => put_before(object, *operator, *operand),
        Cause::Beyond { entry, subscript } => put_beyond(object, layout, *entry, subscript),
        Cause::Wide { low, high, procs } => put_wide(object, *low, *high, *procs),
        Cause::Meeting => Ok(()),
        Cause::Writing { writes } => put_writers(alloc, object, writes),
    }
}

/// Puts why a statement faults, if that is known.
pub(crate) fn put_known(
    alloc: Global,
    object: &mut Object,
    layout: &Layout,
    cause: &Option<Cause>,
) -> Result<(), AllocError>
    ensures { OnOk result (shown object.new ≡ with_fields (spec.known_fields layout.now (known_cause cause.now)) (shown object.old)) }
{
    match cause {
        Some(cause) => put_why(alloc, object, layout, cause),
        None => Ok(()),
    }
}
