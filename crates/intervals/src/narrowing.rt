//! What is left of an interval where a comparison holds.

ghost use Rattle.std.specs.Prelude.{◌≡◌, ◌≢◌, ◌↔◌, ℤ, ◌≤ℤ◌, ◌<ℤ◌, IfSome, IsSomeAnd, MatchOption};
ghost use Rattle.intervals.specs.Intervals.{IsIn};
ghost use Rattle.intervals.specs.declared.comparison.Comparison.TheVariants as comparisons;
ghost use Rattle.intervals.specs.Narrowing.{IsNarrowed};

use crate::comparison::Comparison;
use crate::interval::Interval;

// The members that are at most a bound.
fn at_most(operand: Interval, bound: i64) -> Option<Interval>
    ensures { MatchOption result ((x : ℤ) → IsIn x operand → bound <ℤ x) (λ i. (x : ℤ) → IsIn x i ↔ (IsIn x operand × x ≤ℤ bound)) }
{
    if bound < operand.least() {
        return None;
    }
    if operand.greatest() <= bound {
        return Some(operand);
    }
    Some(Interval::from_to(operand.least(), bound))
}

// The members that are at least a bound.
fn at_least(operand: Interval, bound: i64) -> Option<Interval>
    ensures { MatchOption result ((x : ℤ) → IsIn x operand → x <ℤ bound) (λ i. (x : ℤ) → IsIn x i ↔ (IsIn x operand × bound ≤ℤ x)) }
{
    if operand.greatest() < bound {
        return None;
    }
    if bound <= operand.least() {
        return Some(operand);
    }
    Some(Interval::from_to(bound, operand.greatest()))
}

// The members below a bound.
fn below(operand: Interval, bound: i64) -> Option<Interval>
    ensures { MatchOption result ((x : ℤ) → IsIn x operand → bound ≤ℤ x) (λ i. (x : ℤ) → IsIn x i ↔ (IsIn x operand × x <ℤ bound)) }
{
    if bound <= operand.least() {
        return None;
    }
    if operand.greatest() < bound {
        return Some(operand);
    }
    Some(Interval::from_to(operand.least(), bound - 1))
}

// The members above a bound.
fn above(operand: Interval, bound: i64) -> Option<Interval>
    ensures { MatchOption result ((x : ℤ) → IsIn x operand → x ≤ℤ bound) (λ i. (x : ℤ) → IsIn x i ↔ (IsIn x operand × bound <ℤ x)) }
{
    if operand.greatest() <= bound {
        return None;
    }
    if bound < operand.least() {
        return Some(operand);
    }
    Some(Interval::from_to(bound + 1, operand.greatest()))
}

// The least interval with all members but one number.
fn without(operand: Interval, value: i64) -> Option<Interval>
    ensures kept { (x : ℤ) → IsIn x operand → x ≢ value → IsSomeAnd result (λ i. IsIn x i) }
    ensures within { IfSome result (λ i. IsIn i.least operand × IsIn i.greatest operand) }
    ensures reached { IfSome result (λ i. (i.least ≢ value) × (i.greatest ≢ value)) }
{
    if value <= operand.least() {
        return above(operand, value);
    }
    if operand.greatest() <= value {
        return below(operand, value);
    }
    Some(operand)
}

// The members that differ from some member: all but that one, if it is alone.
fn differing(left: Interval, right: Interval) -> Option<Interval>
    ensures { IsNarrowed comparisons.Unequal left right result }
{
    if right.is_point() {
        return without(left, right.least());
    }
    Some(left)
}

/// The least interval that holds the members of the left one of which the comparison holds with some member of the
/// right one; none where there is no such member.
pub fn narrowed(comparison: Comparison, left: Interval, right: Interval) -> Option<Interval>
    // The result holds each left member for which the comparison holds with some right member, and its ends are such
    // members.
    ensures { IsNarrowed comparison left right result }
{
    match comparison {
        Comparison::Equal => left.meet(right),
        Comparison::Unequal => differing(left, right),
        Comparison::Less => below(left, right.greatest()),
        Comparison::AtMost => at_most(left, right.greatest()),
        Comparison::Greater => above(left, right.least()),
        Comparison::AtLeast => at_least(left, right.least()),
    }
}
