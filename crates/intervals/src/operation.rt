//! What the operators of the language come to on all members of intervals.

ghost use Rattle.std.specs.Prelude.{◌≡◌, ℤ, IfSome, IfNone, IsSomeAnd};
ghost use Rattle.pram_meaning.specs.Operation as meaning;
ghost use Rattle.pram_values.specs.Truth as truths;
ghost use Rattle.intervals.specs.Intervals.{IsPoint};
ghost use Rattle.intervals.specs.Comparisons.{holds};
ghost use Rattle.intervals.specs.Kinds.{IsNoComparison};
ghost use Rattle.intervals.specs.Reaching.{IsReaching, IsBoundedFor};
ghost use Rattle.intervals.specs.Results.{Tells, AreEndsGiven};

use crate::comparison::Comparison;
use crate::found::Found;
use crate::interval::Interval;
use crate::products::multiply;
use crate::quotients::divide_by;
use crate::remainders::remainder_by;
use crate::sums::{add, negate, subtract};
use crate::tests::{both, compare, either, negation};
use pram_trees::{Binary, Prefix};

// What an operator comes to.
fn by_operator(operator: Binary, left: Interval, right: Interval) -> Found
    ensures told { Tells (meaning.operate operator) left right result }
    ensures reached { IsReaching operator left right result → AreEndsGiven (meaning.operate operator) left right result }
    ensures bounded { IsBoundedFor operator left right result }
{
    match operator {
        Binary::Or => either(left, right),
        Binary::And => both(left, right),
        Binary::Equal => compare(Comparison::Equal, left, right),
        Binary::Unequal => compare(Comparison::Unequal, left, right),
        Binary::Less => compare(Comparison::Less, left, right),
        Binary::AtMost => compare(Comparison::AtMost, left, right),
        Binary::Greater => compare(Comparison::Greater, left, right),
        Binary::AtLeast => compare(Comparison::AtLeast, left, right),
        Binary::Add => add(left, right),
        Binary::Subtract => subtract(left, right),
        Binary::Multiply => multiply(left, right),
        Binary::Divide => divide_by(left, right),
        Binary::Remainder => remainder_by(left, right),
    }
}

/// What an operator comes to on all members of two intervals.
pub fn operate(operator: Binary, left: Interval, right: Interval) -> Found
    // The value holds whatever members of the two intervals give, and each fault is told exactly where some of them
    // have it.
    ensures told { Tells (meaning.operate operator) left right result }
    // Both ends of the value are given: of products and quotients if none overflows, of remainders if all quotients by
    // one divisor agree.
    ensures reached { IsReaching operator left right result → AreEndsGiven (meaning.operate operator) left right result }
    // Products and quotients found end where whole results do, cut at 64 bits; remainders lie between 0 and divisors,
    // exact for one quotient.
    ensures bounded { IsBoundedFor operator left right result }
    // One pair of numbers gives just the number that the operator gives.
    ensures point { (x y z : ℤ) → IsPoint x left → IsPoint y right → meaning.operate operator x y ≡ Ok z
        → IsSomeAnd result.value (λ i. IsPoint z i) }
{
    by_operator(operator, left, right)
}

/// What an operator before a value comes to on all members of an interval.
pub fn operate_before(operator: Prefix, operand: Interval) -> Found
    // The value holds whatever the members give, and each fault is told exactly where some of them have it.
    ensures told { Tells (λ x _. meaning.operate_before operator x) operand operand result }
    // Both ends of the value are given.
    ensures reached { AreEndsGiven (λ x _. meaning.operate_before operator x) operand operand result }
{
    match operator {
        Prefix::Negate => negate(operand),
        Prefix::Not => negation(operand),
    }
}

/// The comparison that an operator is, if it is one.
pub fn comparison_of(operator: Binary) -> Option<Comparison>
    // The operator gives whether the comparison holds.
    ensures same { IfSome result (λ c. (x y : ℤ) → meaning.operate operator x y ≡ Ok (truths.truth (holds c x y))) }
    // Only connectives and arithmetic are none.
    ensures all { IfNone result (IsNoComparison operator) }
{
    match operator {
        Binary::Equal => Some(Comparison::Equal),
        Binary::Unequal => Some(Comparison::Unequal),
        Binary::Less => Some(Comparison::Less),
        Binary::AtMost => Some(Comparison::AtMost),
        Binary::Greater => Some(Comparison::Greater),
        Binary::AtLeast => Some(Comparison::AtLeast),
        Binary::Or
        | Binary::And
        | Binary::Add
        | Binary::Subtract
        | Binary::Multiply
        | Binary::Divide
        | Binary::Remainder => None,
    }
}
