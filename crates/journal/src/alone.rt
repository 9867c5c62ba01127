//! Why a statement of one processor faults.

ghost use Rattle.std.specs.Prelude.{◌≡◌, nat_lt};
ghost use Rattle.pram_model.specs.Layout.{cell_of, width};
ghost use Rattle.pram_meaning.specs.Listening.{action_is, step_action_is};
ghost use Rattle.pram_meaning.specs.Runs.{state_of, view_is};
ghost use Rattle.pram_meaning.specs.Store.{seen};
ghost use Rattle.journal.specs.Causes.{known_cause};
ghost use Rattle.journal.specs.FoundCauses as spec;

use crate::Cause;
use crate::seeing::view_of;
use crate::value::value_or_cause;
use pram_check::{Expression, Program, StepTarget, Target};
use pram_meaning::action::{Action, StepAction};
use pram_meaning::run::Run;
use pram_meaning::view::View;
use std::alloc::Global;

fn cause_of_value(view: &View, e: &Expression) -> Option<Cause>
    ensures { known_cause result ≡ spec.cause_of_value (view_is view.now) e.now }
{
    match value_or_cause(view, e) {
        Ok(_) => None,
        Err(cause) => Some(cause),
    }
}

// Why a subscript has no cell.
fn cause_of_cell(view: &View, entry: usize, subscript: i64) -> Option<Cause>
    ensures { known_cause result ≡ spec.cause_of_cell entry subscript (cell_of (view_is view.now).layout entry subscript) }
{
    match view.layout.cell(entry, subscript) {
        Some(_) => None,
        None => Some(Cause::Beyond { entry, subscript }),
    }
}

// Why an assignment to the one cell of a declaration fails.
fn cause_of_single(view: &View, entry: usize, e: &Expression) -> Option<Cause>
    ensures { known_cause result ≡ spec.cause_of_single (view_is view.now) entry e.now }
{
    match value_or_cause(view, e) {
        Ok(_) => cause_of_cell(view, entry, 0),
        Err(cause) => Some(cause),
    }
}

// Why a value at a known subscript fails to be written.
fn cause_behind(view: &View, entry: usize, subscript: i64, e: &Expression) -> Option<Cause>
    ensures { known_cause result ≡ spec.then_cause (spec.value_or_cause (view_is view.now) e.now)
        (λ v. spec.cause_of_cell entry subscript (cell_of (view_is view.now).layout entry subscript)) }
{
    match value_or_cause(view, e) {
        Ok(_) => cause_of_cell(view, entry, subscript),
        Err(cause) => Some(cause),
    }
}

// Why an assignment to an array fails.
fn cause_of_element(
    view: &View,
    entry: usize,
    subscript: &Expression,
    e: &Expression,
) -> Option<Cause>
    ensures { known_cause result ≡ spec.cause_of_element (view_is view.now) entry subscript.now e.now }
{
    match value_or_cause(view, subscript) {
        Ok(z) => cause_behind(view, entry, z, e),
        Err(cause) => Some(cause),
    }
}

fn cause_of_assign(view: &View, target: &Target, e: &Expression) -> Option<Cause>
    ensures { known_cause result ≡ spec.cause_of_assign (view_is view.now) target.now e.now }
{
    match target {
        Target::Uniform(_) => cause_of_value(view, e),
        Target::Cell(entry) => cause_of_single(view, *entry, e),
        Target::Element(entry, subscript) => cause_of_element(view, *entry, subscript, e),
    }
}

fn cause_of_step(view: &View, target: &StepTarget, e: &Expression) -> Option<Cause>
    ensures { known_cause result ≡ spec.cause_of_step (view_is view.now) target.now e.now }
{
    match target {
        StepTarget::Local(_) => cause_of_value(view, e),
        StepTarget::Cell(entry) => cause_of_single(view, *entry, e),
        StepTarget::Element(entry, subscript) => cause_of_element(view, *entry, subscript, e),
    }
}

fn cause_of_bounds(view: &View, low: &Expression, high: &Expression) -> Option<Cause>
    ensures { known_cause result ≡ spec.cause_of_bounds (view_is view.now) low.now high.now }
{
    match value_or_cause(view, low) {
        Ok(_) => cause_of_value(view, high),
        Err(cause) => Some(cause),
    }
}

// Whether more indices go from one to the other than there may be processors.
fn is_wide(procs: u32, low: i64, high: i64) -> bool
    ensures { result ≡ nat_lt procs (width low high) }
{
    low <= high && high.abs_diff(low) >= u64::from(procs)
}

fn cause_of_width(procs: u32, low: i64, high: i64) -> Option<Cause>
    ensures { known_cause result ≡ spec.cause_of_width procs low high }
{
    if is_wide(procs, low, high) {
        Some(Cause::Wide { low, high, procs })
    } else {
        None
    }
}

// Why a range from a known index on fails.
fn cause_from(procs: u32, view: &View, low: i64, high: &Expression) -> Option<Cause>
    ensures { known_cause result ≡ spec.then_cause (spec.value_or_cause (view_is view.now) high.now)
        (λ b. spec.cause_of_width procs low b) }
{
    match value_or_cause(view, high) {
        Ok(b) => cause_of_width(procs, low, b),
        Err(cause) => Some(cause),
    }
}

fn cause_of_range(procs: u32, view: &View, low: &Expression, high: &Expression) -> Option<Cause>
    ensures { known_cause result ≡ spec.cause_of_range procs (view_is view.now) low.now high.now }
{
    match value_or_cause(view, low) {
        Ok(a) => cause_from(procs, view, a, high),
        Err(cause) => Some(cause),
    }
}

// Why what a processor sees makes a statement outside pardo fault.
fn cause_seen(procs: u32, view: &View, action: &Action) -> Option<Cause>
    ensures { known_cause result ≡ spec.cause_alone procs (view_is view.now) (action_is action.now) }
{
    match action {
        Action::Assigns { target, value } => cause_of_assign(view, target, value),
        Action::Prints { value } => cause_of_value(view, value),
        Action::Turns { test } => cause_of_value(view, test),
        Action::Chooses { test } => cause_of_value(view, test),
        Action::Bounds { low, high } => cause_of_bounds(view, low, high),
        Action::Sets { .. } => None,
        Action::Ranges { low, high } => cause_of_range(procs, view, low, high),
    }
}

/// Why a processor of a set fails at a statement inside pardo; none where it doesn't.
pub fn cause_in(view: &View, action: &StepAction) -> Option<Cause>
    ensures { known_cause result ≡ spec.cause_in (view_is view.now) (step_action_is action.now) }
{
    match action {
        StepAction::Assigns { target, value } => cause_of_step(view, target, value),
        StepAction::Turns { test } => cause_of_value(view, test),
        StepAction::Chooses { test } => cause_of_value(view, test),
    }
}

/// Why a statement outside pardo faults, by the run as it stands before it; none where it doesn't. It takes no memory.
pub(crate) fn cause_alone(
    alloc: Global,
    program: &Program,
    run: &Run,
    action: &Action,
) -> Option<Cause>
    // It is the defined cause of the statement outside pardo in this state, and none where that doesn't fault.
    ensures { known_cause result ≡ spec.cause_alone program.now.procs (seen program.now (state_of run.now)) (action_is action.now) }
{
    let no_locals: Vec<i64> = Vec::new(alloc);
    cause_seen(
        program.procs(),
        &view_of(program, run, 0, &no_locals),
        action,
    )
}
