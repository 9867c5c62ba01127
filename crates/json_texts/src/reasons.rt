//! The faults that may come, and why.

ghost use Rattle.std.specs.Prelude.{◌≡◌, ◌++◌, [], IfOk, OnOk, map, slice_get};
ghost use Rattle.serde_json.specs.View.{view};
ghost use Rattle.all_inputs.specs.declared.reason.Reason.TheVariants as variant;
ghost use Rattle.json_texts.specs.Facts.{with_fields};
ghost use Rattle.json_texts.specs.Shown.{shown};
ghost use Rattle.json_texts.specs.OverallFacts as spec;

use crate::{Object, Value};
use all_inputs::{LineFaults, Reason};
use intervals::Interval;
use pram_printer::{binary_text, prefix_text};
use pram_trees::{Binary, Layout, Prefix};
use pram_values::Kind;
use program_texts::kind_word;
use std::alloc::{AllocError, Global};

/// The kinds of faults, in the order in which they are told.
const KINDS: [Kind; 6] = [
    Kind::Overflow,
    Kind::DivideByZero,
    Kind::OutOfRange,
    Kind::TooWide,
    Kind::ReadConflict,
    Kind::WriteConflict,
];

/// Puts the least and the greatest number of an interval.
pub(crate) fn put_interval(object: &mut Object, interval: Interval) -> Result<(), AllocError>
    ensures { OnOk result (shown object.new ≡ with_fields (spec.interval_fields interval) (shown object.old)) }
{
    object.put_value("least", interval.least())?;
    object.put_value("greatest", interval.greatest())
}

fn interval_facts(alloc: Global, interval: Interval) -> Result<Value, AllocError>
    ensures { IfOk result (λ v. view v ≡ spec.interval_facts interval) }
{
    let mut object = Object::new(alloc);
    put_interval(&mut object, interval)?;
    Ok(object.into_value())
}

// An operator on two operands.
fn put_operands(
    alloc: Global,
    object: &mut Object,
    operator: Binary,
    left: Interval,
    right: Interval,
) -> Result<(), AllocError>
    ensures { OnOk result (shown object.new
        ≡ with_fields (spec.reason_fields [] (variant.Operands operator left right)) (shown object.old)) }
{
    let left = interval_facts(alloc, left)?;
    let right = interval_facts(alloc, right)?;
    object.put_letters("operator", binary_text(operator))?;
    object.put("left", left)?;
    object.put("right", right)
}

// An operator before an operand.
fn put_operand(
    alloc: Global,
    object: &mut Object,
    operator: Prefix,
    operand: Interval,
) -> Result<(), AllocError>
    ensures { OnOk result (shown object.new
        ≡ with_fields (spec.reason_fields [] (variant.Operand operator operand)) (shown object.old)) }
{
    let operand = interval_facts(alloc, operand)?;
    object.put_letters("operator", prefix_text(operator))?;
    object.put("operand", operand)
}

// The name of the declaration of that number, if there is one.
#[tactic(auto, using(crate::proofs::IntervalFacts::no_name))]
fn put_name(object: &mut Object, layout: &Layout, entry: usize) -> Result<(), AllocError>
    ensures { OnOk result (shown object.new ≡ with_fields (spec.name_fields (slice_get layout.now entry)) (shown object.old)) }
{
    if entry < layout.len() {
        object.put_letters("subscript_of", layout.name(entry))
    } else {
        Ok(())
    }
}

// A subscript of the declaration of that number.
fn put_subscript(
    alloc: Global,
    object: &mut Object,
    layout: &Layout,
    entry: usize,
    subscript: Interval,
) -> Result<(), AllocError>
    ensures { OnOk result (shown object.new
        ≡ with_fields (spec.reason_fields layout.now (variant.Subscript entry subscript)) (shown object.old)) }
{
    let subscript = interval_facts(alloc, subscript)?;
    object.put("subscript", subscript)?;
    put_name(object, layout, entry)
}

// The bounds of a pardo.
fn put_width(object: &mut Object, first: i64, last: i64) -> Result<(), AllocError>
    ensures { OnOk result (shown object.new ≡ with_fields (spec.reason_fields [] (variant.Width first last)) (shown object.old)) }
{
    object.put_value("first", first)?;
    object.put_value("last", last)
}

fn put_reason(
    alloc: Global,
    object: &mut Object,
    layout: &Layout,
    reason: Reason,
) -> Result<(), AllocError>
    ensures { OnOk result (shown object.new ≡ with_fields (spec.reason_fields layout.now reason) (shown object.old)) }
{
    match reason {
        Reason::Operands {
            operator,
            left,
            right,
        } => put_operands(alloc, object, operator, left, right),
        Reason::Operand { operator, operand } => put_operand(alloc, object, operator, operand),
        Reason::Subscript { entry, subscript } => {
            put_subscript(alloc, object, layout, entry, subscript)
        }
        Reason::Width { first, last } => put_width(object, first, last),
        Reason::Shared => object.put("shared", Value::Bool(true)),
        Reason::Single => object.put("single", Value::Bool(true)),
    }
}

fn reason_facts(alloc: Global, layout: &Layout, reason: Reason) -> Result<Value, AllocError>
    ensures { IfOk result (λ v. view v ≡ spec.reason_facts layout.now reason) }
{
    let mut object = Object::new(alloc);
    put_reason(alloc, &mut object, layout, reason)?;
    Ok(object.into_value())
}

// A fault that may come.
fn fault_facts(
    alloc: Global,
    layout: &Layout,
    line: u32,
    kind: Kind,
    reason: Reason,
) -> Result<Value, AllocError>
    ensures { IfOk result (λ v. view v ≡ spec.fault_facts layout.now line kind reason) }
{
    let reason = reason_facts(alloc, layout, reason)?;
    let mut object = Object::new(alloc);
    object.put_word("kind", kind_word(kind))?;
    object.put_count("line", u64::from(line))?;
    object.put("reason", reason)?;
    Ok(object.into_value())
}

// Puts a fault into a list, if there is a reason for it.
fn push_if_any(
    alloc: Global,
    list: &mut Vec<Value>,
    layout: &Layout,
    line: u32,
    kind: Kind,
    reason: Option<Reason>,
) -> Result<(), AllocError>
    ensures { OnOk result (map view list.new.items
        ≡ map view list.old.items ++ spec.facts_if_any layout.now line kind reason) }
{
    let Some(reason) = reason else {
        return Ok(());
    };
    let fault = fault_facts(alloc, layout, line, kind, reason)?;
    list.push(fault)?;
    Ok(())
}

// Puts each fault of a line into a list.
#[tactic(auto, using(crate::proofs::InTurn::turn_start, crate::proofs::InTurn::turn_go, crate::proofs::InTurn::turn_end))]
fn push_line_faults(
    alloc: Global,
    list: &mut Vec<Value>,
    layout: &Layout,
    entry: &LineFaults,
) -> Result<(), AllocError>
    ensures { OnOk result (map view list.new.items ≡ map view list.old.items ++ spec.line_facts layout.now entry.now) }
{
    for kind in KINDS {
        let reason = entry.faults.reason(kind);
        push_if_any(alloc, list, layout, entry.line, kind, reason)?;
    }
    Ok(())
}

/// Each fault that may come, in the order of the lines.
#[tactic(auto, using(crate::proofs::InTurn::turn_start, crate::proofs::InTurn::turn_go, crate::proofs::InTurn::turn_end))]
pub(crate) fn faults_of(
    alloc: Global,
    layout: &Layout,
    lines: &[LineFaults],
) -> Result<Vec<Value>, AllocError>
    ensures { IfOk result (λ list. map view list.items ≡ spec.faults_facts layout.now lines.now) }
{
    let mut list = Vec::new(alloc);
    for entry in lines {
        push_line_faults(alloc, &mut list, layout, entry)?;
    }
    Ok(list)
}
