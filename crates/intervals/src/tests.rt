//! Comparisons and connectives on all members of intervals.

ghost use Rattle.std.specs.Prelude.{◌≡◌, ◌↔◌, ◌&&◌, ◌||◌, not, true, false, int_le, IsTrue, IsSomeAnd};
ghost use Rattle.pram_values.specs.Truth as truths;
ghost use Rattle.intervals.specs.Comparisons.{holds, Comes, ComesOnOne};
ghost use Rattle.intervals.specs.Results.{Tells, AreEndsGiven};

use crate::comparison::Comparison;
use crate::found::Found;
use crate::interval::Interval;
use pram_values::truth;

// What is found of a test that may hold, or fail, or both.
fn tested(may_hold: bool, may_fail: bool) -> Found
    ensures value { IsSomeAnd result.value
        (λ i. (i.least ≡ truths.truth (may_hold && not may_fail)) × (i.greatest ≡ truths.truth may_hold)) }
    ensures overflow { result.may_overflow ≡ false }
    ensures zero { result.may_divide_by_zero ≡ false }
{
    let least = truth(may_hold && !may_fail);
    Found {
        value: Some(Interval::from_to(least, truth(may_hold))),
        may_overflow: false,
        may_divide_by_zero: false,
    }
}

// Whether some members are the same.
fn may_be_equal(left: Interval, right: Interval) -> bool
    ensures { IsTrue result ↔ Comes (λ x y. truths.is_equal x y) left right true }
{
    match left.meet(right) {
        Some(_) => true,
        None => false,
    }
}

// Whether some members differ.
fn may_differ(left: Interval, right: Interval) -> bool
    ensures { IsTrue result ↔ Comes (λ x y. truths.is_equal x y) left right false }
{
    left.least() != right.greatest() || left.greatest() != right.least()
}

// Whether some member is at most one of the other.
fn may_be_at_most(left: Interval, right: Interval) -> bool
    ensures { IsTrue result ↔ Comes (λ x y. int_le x y) left right true }
{
    left.least() <= right.greatest()
}

// Whether a comparison holds of some members.
fn may_hold(comparison: Comparison, left: Interval, right: Interval) -> bool
    ensures { IsTrue result ↔ Comes (holds comparison) left right true }
{
    match comparison {
        Comparison::Equal => may_be_equal(left, right),
        Comparison::Unequal => may_differ(left, right),
        Comparison::Less => left.least() < right.greatest(),
        Comparison::AtMost => may_be_at_most(left, right),
        Comparison::Greater => right.least() < left.greatest(),
        Comparison::AtLeast => may_be_at_most(right, left),
    }
}

/// What a comparison of members comes to.
pub(crate) fn compare(comparison: Comparison, left: Interval, right: Interval) -> Found
    ensures told { Tells (λ x y. Ok (truths.truth (holds comparison x y))) left right result }
    ensures ends { AreEndsGiven (λ x y. Ok (truths.truth (holds comparison x y))) left right result }
{
    tested(
        may_hold(comparison, left, right),
        may_hold(comparison.opposite(), left, right),
    )
}

// Whether some member is not 0.
fn may_be_true(operand: Interval) -> bool
    ensures { IsTrue result ↔ ComesOnOne truths.is_nonzero operand true }
{
    operand.least() != 0 || operand.greatest() != 0
}

// Whether 0 is a member.
fn may_be_false(operand: Interval) -> bool
    ensures { IsTrue result ↔ ComesOnOne truths.is_nonzero operand false }
{
    operand.has(0)
}

// Whether both hold.
fn all_of(first: bool, second: bool) -> bool
    ensures { result ≡ (first && second) }
{
    first && second
}

// Whether one of them holds.
fn one_of(first: bool, second: bool) -> bool
    ensures { result ≡ (first || second) }
{
    first || second
}

/// What `and` of members comes to.
pub(crate) fn both(left: Interval, right: Interval) -> Found
    ensures told { Tells (λ x y. Ok (truths.truth (truths.is_nonzero x && truths.is_nonzero y))) left right result }
    ensures ends { AreEndsGiven (λ x y. Ok (truths.truth (truths.is_nonzero x && truths.is_nonzero y))) left right result }
{
    let may_hold = all_of(may_be_true(left), may_be_true(right));
    tested(may_hold, one_of(may_be_false(left), may_be_false(right)))
}

/// What `or` of members comes to.
pub(crate) fn either(left: Interval, right: Interval) -> Found
    ensures told { Tells (λ x y. Ok (truths.truth (truths.is_nonzero x || truths.is_nonzero y))) left right result }
    ensures ends { AreEndsGiven (λ x y. Ok (truths.truth (truths.is_nonzero x || truths.is_nonzero y))) left right result }
{
    let may_hold = one_of(may_be_true(left), may_be_true(right));
    tested(may_hold, all_of(may_be_false(left), may_be_false(right)))
}

/// What `not` of members comes to.
pub(crate) fn negation(operand: Interval) -> Found
    ensures told { Tells (λ x _. Ok (truths.truth (not (truths.is_nonzero x)))) operand operand result }
    ensures ends { AreEndsGiven (λ x _. Ok (truths.truth (not (truths.is_nonzero x)))) operand operand result }
{
    tested(may_be_false(operand), may_be_true(operand))
}
