//! Attempts at expressions and statements.

ghost use Rattle.std.specs.Prelude.{◌≡◌, ◌++◌, ◌∷◌, [], ◌+ℤ◌, ◌-◌, ◌<◌, ◌≤◌, FitsSigned, MatchOption, IfSome, IfOk, OnOk, IfErr, pos};
ghost use Rattle.std.specs.Int.{w64};
ghost use Rattle.pram_model.specs.Layout.{width};
ghost use Rattle.pram_meaning.specs.Attempt.{attempt, operation, read, write, attempt_assign, attempt_step, attempt_bounds, attempt_range};
ghost use Rattle.pram_meaning.specs.Runs.{view_is, IsAttempt, IsEffect, IsPair};

use crate::operation::{apply, apply_before};
use crate::view::{View, number_at};
use pram_check::{Expression, StepTarget, Target};
use pram_values::Kind;

/// Why an attempt gives no value.
#[derive(Drop)]
pub enum Failure {
    /// It faults.
    Fault(Kind),
    /// Memory was refused.
    OutOfMemory,
}

/// What an attempt at a statement gives: a value, and the cell that it goes to, if any.
#[derive(Clone, Copy)]
pub struct Effect {
    pub value: i64,
    pub cell: Option<u32>,
}

// One position on, where a cell may be read.
fn step(trail: &mut Vec<Option<u32>>, cell: Option<u32>) -> Result<(), Failure>
    ensures ok { OnOk result (trail.new.items ≡ trail.old.items ++ cell ∷ []) }
    ensures err { IfErr result (λ e. e ≡ Failure.OutOfMemory) }
{
    if trail.push(cell).is_err() {
        return Err(Failure::OutOfMemory);
    }
    Ok(())
}

// An operation, at the next position.
fn settle(trail: &mut Vec<Option<u32>>, value: Result<i64, Kind>) -> Result<i64, Failure>
    ensures { IsAttempt result trail.new.items (operation value trail.old.items) }
{
    step(trail, None)?;
    match value {
        Ok(v) => Ok(v),
        Err(kind) => Err(Failure::Fault(kind)),
    }
}

// A read, at the next position.
fn read_cell(view: &View, cell: Option<u32>, trail: &mut Vec<Option<u32>>) -> Result<i64, Failure>
    ensures { IsAttempt result trail.new.items (read (view_is view.now) cell trail.old.items) }
{
    step(trail, cell)?;
    match cell {
        Some(c) => Ok(number_at(view.cells, c as usize)),
        None => Err(Failure::Fault(Kind::OutOfRange)),
    }
}

/// The value of an expression, from the positions gone through on.
pub fn value_of(view: &View, e: &Expression, trail: &mut Vec<Option<u32>>) -> Result<i64, Failure>
    ensures { IsAttempt result trail.new.items (attempt (view_is view.now) e.now trail.old.items) }
{
    match e {
        Expression::Number(n) => Ok(*n),
        Expression::Uniform(x) => Ok(number_at(view.uniforms, *x)),
        Expression::Index => Ok(view.index),
        Expression::Local(x) => Ok(number_at(view.locals, *x)),
        Expression::Cell(a) => read_cell(view, view.layout.cell(*a, 0), trail),
        Expression::Element(a, subscript) => {
            let z = value_of(view, subscript, trail)?;
            read_cell(view, view.layout.cell(*a, z), trail)
        }
        Expression::Prefix(operator, operand) => {
            let v = value_of(view, operand, trail)?;
            settle(trail, apply_before(*operator, v))
        }
        Expression::Chain(first, links) => {
            let mut value = value_of(view, first, trail)?;
            for link in links {
                let operand = value_of(view, &link.operand, trail)?;
                value = settle(trail, apply(link.operator, value, operand))?;
            }
            Ok(value)
        }
    }
}

// A write, at the next position.
fn write_at(cell: Option<u32>, trail: &mut Vec<Option<u32>>, value: i64) -> Result<Effect, Failure>
    ensures { IsEffect result trail.new.items (write cell trail.old.items value) }
{
    step(trail, None)?;
    match cell {
        Some(c) => Ok(Effect {
            value,
            cell: Some(c),
        }),
        None => Err(Failure::Fault(Kind::OutOfRange)),
    }
}

/// An attempt at an assignment outside pardo.
pub fn assignment(
    view: &View,
    target: &Target,
    e: &Expression,
    trail: &mut Vec<Option<u32>>,
) -> Result<Effect, Failure>
    requires { trail.old.items ≡ [] }
    ensures { IsEffect result trail.new.items (attempt_assign (view_is view.now) target.now e.now) }
{
    match target {
        Target::Uniform(_) => {
            let value = value_of(view, e, trail)?;
            Ok(Effect { value, cell: None })
        }
        Target::Cell(a) => {
            let value = value_of(view, e, trail)?;
            write_at(view.layout.cell(*a, 0), trail, value)
        }
        Target::Element(a, subscript) => {
            let at = value_of(view, subscript, trail)?;
            let value = value_of(view, e, trail)?;
            write_at(view.layout.cell(*a, at), trail, value)
        }
    }
}

/// An attempt at an assignment inside pardo.
pub fn step_assignment(
    view: &View,
    target: &StepTarget,
    e: &Expression,
    trail: &mut Vec<Option<u32>>,
) -> Result<Effect, Failure>
    requires { trail.old.items ≡ [] }
    ensures { IsEffect result trail.new.items (attempt_step (view_is view.now) target.now e.now) }
{
    match target {
        StepTarget::Local(_) => {
            let value = value_of(view, e, trail)?;
            Ok(Effect { value, cell: None })
        }
        StepTarget::Cell(a) => {
            let value = value_of(view, e, trail)?;
            write_at(view.layout.cell(*a, 0), trail, value)
        }
        StepTarget::Element(a, subscript) => {
            let z = value_of(view, subscript, trail)?;
            let value = value_of(view, e, trail)?;
            write_at(view.layout.cell(*a, z), trail, value)
        }
    }
}

/// An attempt at the bounds of a `for`, the low one first.
pub fn bounds(
    view: &View,
    low: &Expression,
    high: &Expression,
    trail: &mut Vec<Option<u32>>,
) -> Result<(i64, i64), Failure>
    requires { trail.old.items ≡ [] }
    ensures { IsPair result trail.new.items (attempt_bounds (view_is view.now) low.now high.now) }
{
    let a = value_of(view, low, trail)?;
    let b = value_of(view, high, trail)?;
    Ok((a, b))
}

// How many indices a pardo has, unless there are too many.
fn count_of(procs: u32, low: i64, high: i64) -> Option<u32>
    ensures count { MatchOption result (procs < width low high) (λ c. (c ≡ width low high) × (c ≤ procs)) }
    ensures fits { IfSome result (λ c. FitsSigned w64 (low +ℤ pos (c - 1))) }
{
    if high < low {
        return Some(0);
    }
    let span = high.abs_diff(low);
    if span >= u64::from(procs) {
        return None;
    }
    Some(span as u32 + 1)
}

/// An attempt at the bounds of a pardo, the low one first: the first index, and how many there are.
pub fn range(
    procs: u32,
    view: &View,
    low: &Expression,
    high: &Expression,
    trail: &mut Vec<Option<u32>>,
) -> Result<(i64, u32), Failure>
    requires { trail.old.items ≡ [] }
    ensures range { IsPair result trail.new.items (attempt_range procs (view_is view.now) low.now high.now) }
    // The last index of the range is a number of 64 bits.
    ensures fits { IfOk result (λ r. FitsSigned w64 (r.0 +ℤ pos (r.1 - 1))) }
{
    let a = value_of(view, low, trail)?;
    let b = value_of(view, high, trail)?;
    step(trail, None)?;
    match count_of(procs, a, b) {
        None => Err(Failure::Fault(Kind::TooWide)),
        Some(count) => Ok((a, count)),
    }
}
