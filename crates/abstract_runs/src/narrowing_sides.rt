//! What is left of what is known where a comparison holds of two expressions.

ghost use Rattle.std.specs.Prelude.{◌≡◌, ℤ, Ok, pos, true, IfOk, OnOk};
ghost use Rattle.intervals.specs.Comparisons.{holds};
ghost use Rattle.intervals.specs.Intervals.{IsIn};
ghost use Rattle.pram_values.specs.Truth.{is_nonzero};
ghost use Rattle.pram_meaning.specs.Operation as spec;
ghost use Rattle.pram_meaning.specs.Store.{State, seen};
ghost use Rattle.abstract_runs.specs.Covers.{IsAmong};
ghost use Rattle.abstract_runs.specs.Following.{Follows};
ghost use Rattle.abstract_runs.specs.Standing.{StandsFor};
ghost use Rattle.abstract_runs.specs.Tests.{ComesTo, IsValueOf};

use crate::alone::outlook_of;
use crate::narrowing_slots::narrow_slot;
use crate::slot::{slot_of, value_seen};
use crate::standing::Standing;
use intervals::{Comparison, Interval, comparison_of};
use pram_check::{Expression, Program};
use pram_trees::Binary;
use std::alloc::{AllocError, Global};

// The interval of what an expression gives in each state that is known.
fn value_known(
    alloc: Global,
    program: &Program,
    known: &Standing,
    e: &Expression,
) -> Result<Option<Interval>, AllocError>
    ensures { IfOk result (λ value. (m : State) (z : ℤ) → StandsFor known.now m → IsValueOf (seen program.now m) e.now z → IsAmong value z) }
{
    let no_locals: Vec<Interval> = Vec::new(alloc);
    let seen = outlook_of(program, known, &no_locals);
    let value = value_seen(alloc, &seen, e)?;
    Ok(value)
}

// What is left where a comparison of the expression's value with a number of the interval holds; `false` where nothing is.
fn narrow_value(
    alloc: Global,
    program: &Program,
    known: &mut Standing,
    e: &Expression,
    comparison: Comparison,
    other: Interval,
) -> Result<bool, AllocError>
    ensures kept { IfOk result (λ on. (m : State) (z y : ℤ) → StandsFor known.old m → IsValueOf (seen program.now m) e.now z → IsIn y other →
        holds comparison z y ≡ true → (on ≡ true) × StandsFor known.new m) }
    ensures follows { OnOk result (Follows known.old known.new) }
{
    let no_locals: Vec<Interval> = Vec::new(alloc);
    let seen = outlook_of(program, known, &no_locals);
    match slot_of(alloc, &seen, e)? {
        Some(slot) => Ok(narrow_slot(known, slot, comparison, other)),
        None => Ok(true),
    }
}

// What is left where a comparison of two expressions' values holds; `false` where nothing is.
fn narrow_sides(
    alloc: Global,
    program: &Program,
    known: &mut Standing,
    left: &Expression,
    comparison: Comparison,
    right: &Expression,
) -> Result<bool, AllocError>
    ensures kept { IfOk result (λ on. (m : State) (x y : ℤ) → StandsFor known.old m → IsValueOf (seen program.now m) left.now x →
        IsValueOf (seen program.now m) right.now y → holds comparison x y ≡ true → (on ≡ true) × StandsFor known.new m) }
    ensures follows { OnOk result (Follows known.old known.new) }
{
    let Some(lefts) = value_known(alloc, program, known, left)? else {
        return Ok(false);
    };
    let Some(rights) = value_known(alloc, program, known, right)? else {
        return Ok(false);
    };
    if !narrow_value(alloc, program, known, left, comparison, rights)? {
        return Ok(false);
    }
    let on = narrow_value(alloc, program, known, right, comparison.mirrored(), lefts)?;
    Ok(on)
}

// The comparison that holds where one came out that way.
pub(crate) fn held(comparison: Comparison, way: bool) -> Comparison
    ensures { (x y : ℤ) → holds comparison x y ≡ way → holds result x y ≡ true }
{
    if way {
        comparison
    } else {
        comparison.opposite()
    }
}

/// What is left where an operator between two expressions came out true or false, if it is a comparison; `false` where nothing is.
pub(crate) fn narrow_compared(
    alloc: Global,
    program: &Program,
    known: &mut Standing,
    left: &Expression,
    operator: Binary,
    right: &Expression,
    way: bool,
) -> Result<bool, AllocError>
    // Each state in which it came out so is one for which what is left stands.
    ensures kept { IfOk result (λ on. (m : State) (x y z : ℤ) → StandsFor known.old m → IsValueOf (seen program.now m) left.now x →
        IsValueOf (seen program.now m) right.now y → spec.operate operator x y ≡ Ok z → is_nonzero z ≡ way →
        (on ≡ true) × StandsFor known.new m) }
    // As many statements have run, and there are as many values.
    ensures follows { OnOk result (Follows known.old known.new) }
{
    let Some(comparison) = comparison_of(operator) else {
        return Ok(true);
    };
    let on = narrow_sides(alloc, program, known, left, held(comparison, way), right)?;
    Ok(on)
}

// The comparison with 0 of what is true or false.
pub(crate) fn held_alone(way: bool) -> Comparison
    ensures { (z y : ℤ) → is_nonzero z ≡ way → y ≡ pos 0 → holds result z y ≡ true }
{
    if way {
        Comparison::Unequal
    } else {
        Comparison::Equal
    }
}

/// What is left where an expression's value is true or false; `false` where nothing is.
pub(crate) fn narrow_alone(
    alloc: Global,
    program: &Program,
    known: &mut Standing,
    e: &Expression,
    way: bool,
) -> Result<bool, AllocError>
    // Each state in which it is so is one for which what is left stands.
    ensures kept { IfOk result (λ on. (m : State) → StandsFor known.old m → ComesTo (seen program.now m) e.now way →
        (on ≡ true) × StandsFor known.new m) }
    // As many statements have run, and there are as many values.
    ensures follows { OnOk result (Follows known.old known.new) }
{
    let on = narrow_value(
        alloc,
        program,
        known,
        e,
        held_alone(way),
        Interval::point(0),
    )?;
    Ok(on)
}
