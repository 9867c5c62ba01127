//! Inputs that get smaller while the same goes wrong.

ghost use Rattle.std.specs.Prelude.{◌≡◌, ◌≢◌, ◌<◌, IsOkAnd, IsTrue, IsFalse, OnErr, OnOk, Ok, Some, None, ℤ, pos, true, false, length};
ghost use Rattle.std.specs.Prelude.{slice_get, slice_set};
ghost use Rattle.std.specs.List.{find};
ghost use Rattle.pram_values.specs.Truth.{is_nonzero};
ghost use Rattle.scopes.specs.Shrunk as spec;
ghost use Rattle.scopes.specs.Wrong as wrongs;

use crate::going_wrong::goes_wrong;
use crate::{Scope, Specification, Wrong};
use pram_check::Program;
use pram_meaning::MeaningRefusal;
use std::alloc::Global;

// One of the three values that are nearer to 0 than a value that isn't 0.
fn nearer(value: i64, which: u8) -> i64
    requires nonzero { is_nonzero value ≡ true }
    requires which { which < 3 }
    ensures { slice_get (spec.nearer value) which ≡ Some result }
{
    match which {
        0 => 0,
        1 => value / 2,
        _ => value - value.signum(),
    }
}

// Puts a value at a place, where it goes wrong so with it; else the input stays.
fn try_value(
    alloc: Global,
    program: &Program,
    specification: &Specification,
    scope: Scope,
    bound: u32,
    wrong: Wrong,
    input: &mut [i64],
    place: usize,
    value: i64,
) -> Result<bool, MeaningRefusal>
    requires place { place < length input.old }
    ensures put { result ≡ Ok true → (input.new ≡ slice_set input.old place value)
        × (wrongs.goes_wrong scope specification.now program.now bound wrong input.new ≡ true) }
    ensures left { result ≡ Ok false → (input.new ≡ input.old)
        × (wrongs.goes_wrong scope specification.now program.now bound wrong (slice_set input.old place value) ≡ false) }
{
    let before = input[place];
    input[place] = value;
    let goes = goes_wrong(alloc, program, specification, scope, bound, wrong, input)?;
    if !goes {
        input[place] = before;
    }
    Ok(goes)
}

// Puts the first value at a place that is nearer to 0 and with which it goes wrong so, and says whether there is one.
fn shrink_at(
    alloc: Global,
    program: &Program,
    specification: &Specification,
    scope: Scope,
    bound: u32,
    wrong: Wrong,
    input: &mut [i64],
    place: usize,
) -> Result<bool, MeaningRefusal>
    requires place { place < length input.old }
    ensures put { result ≡ Ok true → find (wrongs.goes_wrong scope specification.now program.now bound wrong)
        (spec.nearer_at input.old place) ≡ Some input.new }
    ensures none { result ≡ Ok false → (input.new ≡ input.old)
        × (find (wrongs.goes_wrong scope specification.now program.now bound wrong) (spec.nearer_at input.old place) ≡ None) }
{
    let value = input[place];
    if value == 0 {
        return Ok(false);
    }
    for which in 0..3 {
        if try_value(
            alloc,
            program,
            specification,
            scope,
            bound,
            wrong,
            input,
            place,
            nearer(value, which),
        )? {
            return Ok(true);
        }
    }
    Ok(false)
}

// Goes on to the first smaller list on which it goes wrong so, and says whether there is one.
fn shrink_once(
    alloc: Global,
    program: &Program,
    specification: &Specification,
    scope: Scope,
    bound: u32,
    wrong: Wrong,
    input: &mut [i64],
) -> Result<bool, MeaningRefusal>
    ensures shrinks { result ≡ Ok true → find (wrongs.goes_wrong scope specification.now program.now bound wrong)
        (spec.smaller input.old) ≡ Some input.new }
    ensures stays { result ≡ Ok false → (input.new ≡ input.old)
        × (find (wrongs.goes_wrong scope specification.now program.now bound wrong) (spec.smaller input.old) ≡ None) }
{
    for place in 0..input.len() {
        if shrink_at(
            alloc,
            program,
            specification,
            scope,
            bound,
            wrong,
            input,
            place,
        )? {
            return Ok(true);
        }
    }
    Ok(false)
}

/// Makes an input smaller as long as it goes wrong so. E11 where there are more values than cells, or than the precondition has; E16 only
/// where memory was refused. What the input is behind an error isn't said.
pub(crate) fn shrink(
    alloc: Global,
    program: &Program,
    specification: &Specification,
    scope: Scope,
    bound: u32,
    wrong: Wrong,
    input: &mut [i64],
) -> Result<(), MeaningRefusal>
    ensures { OnOk result (spec.ShrinksTo (wrongs.goes_wrong scope specification.now program.now bound wrong) input.old input.new) }
{
    while shrink_once(alloc, program, specification, scope, bound, wrong, input)? {}
    Ok(())
}
