//! Quotients of all members of intervals.

ghost use Rattle.std.specs.Prelude.{◌≡◌, ◌≢◌, ℤ, pos, false, ◌≤ℤ◌, ◌⊎◌, MatchOption, IsNone};
ghost use Rattle.std.specs.Int.{int_min, int_max};
ghost use Rattle.pram_values.specs.Division.{quotient, floor_quotient};
ghost use Rattle.pram_values.specs.Truth.{is_nonzero};
ghost use Rattle.intervals.specs.Intervals.{IsIn};
ghost use Rattle.intervals.specs.Hulls.{IsHull, IsCutHull};
ghost use Rattle.intervals.specs.Remainders.{IsZeroAlone};
ghost use Rattle.intervals.specs.Results.{Tells, AreEndsGiven};

use crate::found::Found;
use crate::interval::Interval;
use crate::span::{Span, between, cut, joined};
use pram_values::divide;

// The quotient rounded down, which 128 bits hold.
pub(crate) fn floor(x: i64, divisor: i64) -> i128
    requires { divisor ≢ pos 0 }
    ensures { result ≡ floor_quotient x divisor }
{
    match divide(x, divisor) {
        Ok(rounded) => i128::from(rounded),
        Err(_) => i128::from(i64::MAX) + 1,
    }
}

// The quotients of a number by the ends of an interval.
fn row(x: i64, right: Interval) -> Span
    requires { ¬ IsIn (pos 0) right }
    ensures least { result.least ≡ int_min (floor_quotient x right.least) (floor_quotient x right.greatest) }
    ensures greatest { result.greatest ≡ int_max (floor_quotient x right.least) (floor_quotient x right.greatest) }
{
    between(floor(x, right.least()), floor(x, right.greatest()))
}

// The least and the greatest quotient by divisors of one sign.
fn one_sided(left: Interval, right: Interval) -> Span
    requires { ¬ IsIn (pos 0) right }
    ensures { IsHull is_nonzero floor_quotient left right result.least result.greatest }
{
    joined(row(left.least(), right), row(left.greatest(), right))
}

// The least and the greatest quotient, if there is a divisor other than 0.
fn quotients(left: Interval, right: Interval) -> Option<Span>
    ensures { MatchOption result ((y : ℤ) → IsIn y right → y ≡ pos 0)
        (λ s. IsHull is_nonzero floor_quotient left right s.least s.greatest) }
{
    match (right.below_zero(), right.above_zero()) {
        (None, None) => None,
        (Some(below), None) => Some(one_sided(left, below)),
        (None, Some(above)) => Some(one_sided(left, above)),
        (Some(below), Some(above)) => Some(joined(one_sided(left, below), one_sided(left, above))),
    }
}

/// The quotients of members, rounded down.
pub(crate) fn divide_by(left: Interval, right: Interval) -> Found
    ensures told { Tells quotient left right result }
    ensures ends { result.may_overflow ≡ false → AreEndsGiven quotient left right result }
    ensures cut { (IsZeroAlone right × IsNone result.value) ⊎ IsCutHull is_nonzero floor_quotient left right result }
{
    match quotients(left, right) {
        Some(span) => cut(span, right.has(0)),
        None => Found {
            value: None,
            may_overflow: false,
            may_divide_by_zero: true,
        },
    }
}
