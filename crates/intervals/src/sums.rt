//! Sums, differences and negatives of all members of intervals.

ghost use Rattle.std.specs.Prelude.{◌≡◌, ◌+ℤ◌, ◌-ℤ◌, neg_ℤ};
ghost use Rattle.pram_values.specs.Value.{checked};
ghost use Rattle.intervals.specs.Results.{Tells, AreEndsGiven};

use crate::found::Found;
use crate::interval::Interval;
use crate::span::{Span, cut};

// The least and the greatest sum.
fn sums(left: Interval, right: Interval) -> Span
    ensures least { result.least ≡ left.least +ℤ right.least }
    ensures greatest { result.greatest ≡ left.greatest +ℤ right.greatest }
{
    Span {
        least: i128::from(left.least()) + i128::from(right.least()),
        greatest: i128::from(left.greatest()) + i128::from(right.greatest()),
    }
}

// The least and the greatest difference.
fn differences(left: Interval, right: Interval) -> Span
    ensures least { result.least ≡ left.least -ℤ right.greatest }
    ensures greatest { result.greatest ≡ left.greatest -ℤ right.least }
{
    Span {
        least: i128::from(left.least()) - i128::from(right.greatest()),
        greatest: i128::from(left.greatest()) - i128::from(right.least()),
    }
}

// The least and the greatest negative.
fn negatives(operand: Interval) -> Span
    ensures least { result.least ≡ neg_ℤ operand.greatest }
    ensures greatest { result.greatest ≡ neg_ℤ operand.least }
{
    Span {
        least: -i128::from(operand.greatest()),
        greatest: -i128::from(operand.least()),
    }
}

/// The sums of members.
pub(crate) fn add(left: Interval, right: Interval) -> Found
    ensures told { Tells (λ x y. checked (x +ℤ y)) left right result }
    ensures ends { AreEndsGiven (λ x y. checked (x +ℤ y)) left right result }
{
    cut(sums(left, right), false)
}

/// The differences of members.
pub(crate) fn subtract(left: Interval, right: Interval) -> Found
    ensures told { Tells (λ x y. checked (x -ℤ y)) left right result }
    ensures ends { AreEndsGiven (λ x y. checked (x -ℤ y)) left right result }
{
    cut(differences(left, right), false)
}

/// The negatives of members.
pub(crate) fn negate(operand: Interval) -> Found
    ensures told { Tells (λ x _. checked (neg_ℤ x)) operand operand result }
    ensures ends { AreEndsGiven (λ x _. checked (neg_ℤ x)) operand operand result }
{
    cut(negatives(operand), false)
}
