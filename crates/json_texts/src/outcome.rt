//! Outcomes.

ghost use Rattle.std.specs.Prelude.{◌≡◌, ◌∷◌, [], IfOk, OnOk, string_bytes};
ghost use Rattle.serde_json.specs.View.{view};
ghost use Rattle.json_texts.specs.Facts.{with_fields};
ghost use Rattle.json_texts.specs.Lines.{IsJson};
ghost use Rattle.json_texts.specs.Shown.{shown};
ghost use Rattle.write_rules.specs.Verdict.{Ended, Faulted, verdict_of};
ghost use Rattle.json_texts.specs.OutcomeFacts as spec;

use crate::fault::put_fault;
use crate::memory::memory_of;
use crate::{Object, Value, line_of};
use memory_texts::Choice;
use pram_trees::Layout;
use std::alloc::{AllocError, Global};
use write_rules::{Fault, Outcome};

fn put_end(
    alloc: Global,
    object: &mut Object,
    layout: &Layout,
    choice: Choice<'_>,
    output: &[i64],
    memory: &[i64],
) -> Result<(), AllocError>
    ensures { OnOk result (shown object.new
        ≡ with_fields (spec.chosen_fields choice.entry layout.now (Ended output.now memory.now)) (shown object.old)) }
{
    let memory = memory_of(alloc, layout, choice, memory)?;
    object.put_word("outcome", "ended")?;
    object.put_values("output", output)?;
    object.put_list("memory", memory)
}

fn put_faulted(
    alloc: Global,
    object: &mut Object,
    layout: &Layout,
    output: &[i64],
    fault: &Fault,
) -> Result<(), AllocError>
    ensures { OnOk result (shown object.new
        ≡ with_fields (spec.outcome_fields layout.now (Faulted fault.now output.now)) (shown object.old)) }
{
    object.put_word("outcome", "fault")?;
    object.put_values("output", output)?;
    put_fault(alloc, object, layout, fault)
}

/// Puts how a run came out, what it printed, and the memory of the chosen declarations or its fault.
pub(crate) fn put_outcome(
    alloc: Global,
    object: &mut Object,
    layout: &Layout,
    outcome: &Outcome,
    choice: Choice<'_>,
) -> Result<(), AllocError>
    ensures { OnOk result (shown object.new
        ≡ with_fields (spec.chosen_fields choice.entry layout.now (verdict_of outcome.now)) (shown object.old)) }
{
    match outcome {
        Outcome::Ended { output, memory } => put_end(alloc, object, layout, choice, output, memory),
        Outcome::Faulted { fault, output } => put_faulted(alloc, object, layout, output, fault),
        Outcome::GoesOn { output } => {
            object.put_word("outcome", "goes on")?;
            object.put_values("output", output)
        }
    }
}

/// The facts of an outcome.
pub(crate) fn outcome_value(
    alloc: Global,
    layout: &Layout,
    outcome: &Outcome,
    choice: Choice<'_>,
) -> Result<Value, AllocError>
    ensures { IfOk result (λ v. view v ≡ spec.chosen_facts choice.entry layout.now (verdict_of outcome.now)) }
{
    let mut object = Object::new(alloc);
    put_outcome(alloc, &mut object, layout, outcome, choice)?;
    Ok(object.into_value())
}

/// An outcome, on a line: `{"memory":[{"name":"s","values":["7"]}],"outcome":"ended","output":["55"]}`, or at a fault
/// `{"kind":"read-conflict","line":4,"outcome":"fault","output":[],"place":"a[1]"}`. Of the memory the chosen declarations are told; what
/// was printed is told with any choice.
pub fn json_outcome(
    alloc: Global,
    layout: &Layout,
    outcome: &Outcome,
    choice: Choice<'_>,
) -> Result<String, AllocError>
    // The line is exactly the facts of the outcome and of the chosen declarations, and read as JSON it is these facts
    // again.
    ensures json { IfOk result
        (λ text. IsJson (spec.chosen_facts choice.entry layout.now (verdict_of outcome.now) ∷ []) (string_bytes text)) }
{
    let facts = outcome_value(alloc, layout, outcome, choice)?;
    line_of(alloc, &facts)
}

// What the cells hold before a run.
fn opening_value(alloc: Global, layout: &Layout, memory: &[i64]) -> Result<Value, AllocError>
    ensures { IfOk result (λ v. view v ≡ spec.opening_facts layout.now memory.now) }
{
    let list = memory_of(alloc, layout, Choice::All, memory)?;
    let mut object = Object::new(alloc);
    object.put_list("opening", list)?;
    Ok(object.into_value())
}

/// What the cells hold before a run, on a line: `{"opening":[{"high":"2","low":"1","name":"a","values":["9","5"]}]}`.
pub fn json_opening(alloc: Global, layout: &Layout, memory: &[i64]) -> Result<String, AllocError>
    ensures json { IfOk result (λ text. IsJson (spec.opening_facts layout.now memory.now ∷ []) (string_bytes text)) }
{
    let facts = opening_value(alloc, layout, memory)?;
    line_of(alloc, &facts)
}
