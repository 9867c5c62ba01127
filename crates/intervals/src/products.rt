//! Products of all members of intervals.

ghost use Rattle.std.specs.Prelude.{◌≡◌, true, false, ◌*ℤ◌};
ghost use Rattle.std.specs.Int.{int_min, int_max};
ghost use Rattle.pram_values.specs.Value.{checked};
ghost use Rattle.intervals.specs.Corners.{least_corner, greatest_corner};
ghost use Rattle.intervals.specs.Hulls.{IsCutHull};
ghost use Rattle.intervals.specs.Results.{Tells, AreEndsGiven};

use crate::found::Found;
use crate::interval::Interval;
use crate::span::{Span, between, cut, joined};

// The product, which 128 bits hold.
fn product(x: i64, y: i64) -> i128
    ensures { result ≡ x *ℤ y }
{
    i128::from(x) * i128::from(y)
}

// The products of a number with the ends of an interval.
fn row(x: i64, right: Interval) -> Span
    ensures least { result.least ≡ int_min (x *ℤ right.least) (x *ℤ right.greatest) }
    ensures greatest { result.greatest ≡ int_max (x *ℤ right.least) (x *ℤ right.greatest) }
{
    between(product(x, right.least()), product(x, right.greatest()))
}

// The least and the greatest product of ends.
fn products(left: Interval, right: Interval) -> Span
    ensures least { result.least ≡ least_corner ◌*ℤ◌ left right }
    ensures greatest { result.greatest ≡ greatest_corner ◌*ℤ◌ left right }
{
    joined(row(left.least(), right), row(left.greatest(), right))
}

/// The products of members.
pub(crate) fn multiply(left: Interval, right: Interval) -> Found
    ensures told { Tells (λ x y. checked (x *ℤ y)) left right result }
    ensures ends { result.may_overflow ≡ false → AreEndsGiven (λ x y. checked (x *ℤ y)) left right result }
    ensures cut { IsCutHull (λ _. true) ◌*ℤ◌ left right result }
{
    cut(products(left, right), false)
}
