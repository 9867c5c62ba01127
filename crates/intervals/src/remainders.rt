//! Remainders of all members of intervals.

ghost use Rattle.std.specs.Prelude.{◌≡◌, ◌≢◌, ◌↔◌, ◌⊎◌, ℤ, pos, ◌+ℤ◌, ◌-ℤ◌, ◌≤ℤ◌, ◌<ℤ◌, IsTrue, IfSome, IsSomeAnd};
ghost use Rattle.std.specs.Int.{int_min, int_max};
ghost use Rattle.pram_values.specs.Division.{remainder_of, floor_remainder};
ghost use Rattle.intervals.specs.Intervals.{IsIn};
ghost use Rattle.intervals.specs.Remainders.{HasOneQuotient, IsRemainderRange, IsZeroAlone, AreRemainders};
ghost use Rattle.intervals.specs.Results.{Gives, Tells, AreEndsGiven};

use crate::found::Found;
use crate::interval::Interval;
use crate::quotients::floor;
use pram_values::remainder;

// What is left of a number.
fn rest(x: i64, divisor: i64) -> i64
    requires { divisor ≢ pos 0 }
    ensures { result ≡ floor_remainder x divisor }
{
    match remainder(x, divisor) {
        Ok(left) => left,
        Err(_) => 0,
    }
}

// Whether two numbers are the same.
fn is_same(x: i128, y: i128) -> bool
    ensures { IsTrue result ↔ (x ≡ y) }
{
    x == y
}

// Whether there is one divisor, not 0, by which all quotients are the same.
fn has_one_quotient(left: Interval, right: Interval) -> bool
    ensures { IsTrue result ↔ HasOneQuotient left right }
{
    if !right.is_point() {
        return false;
    }
    let divisor = right.least();
    if divisor == 0 {
        return false;
    }
    is_same(
        floor(left.least(), divisor),
        floor(left.greatest(), divisor),
    )
}

// The remainders where all quotients by one divisor are the same.
fn by_one(left: Interval, right: Interval) -> Interval
    requires { HasOneQuotient left right }
    ensures least { result.least ≡ floor_remainder left.least right.least }
    ensures greatest { result.greatest ≡ floor_remainder left.greatest right.least }
{
    Interval::from_to(
        rest(left.least(), right.least()),
        rest(left.greatest(), right.least()),
    )
}

// How far below 0 remainders come.
fn lowest(right: Interval) -> i64
    ensures { result ≡ int_min (pos 0) (right.least +ℤ pos 1) }
{
    if right.least() < -1 {
        right.least() + 1
    } else {
        0
    }
}

// How far above 0 remainders come, by their divisors alone.
fn most(right: Interval) -> i64
    ensures { result ≡ int_max (pos 0) (right.greatest -ℤ pos 1) }
{
    if right.greatest() > 1 {
        right.greatest() - 1
    } else {
        0
    }
}

// How far above 0 remainders come.
fn highest(left: Interval, right: Interval) -> i64
    ensures positive { pos 0 ≤ℤ result }
    ensures capped { pos 0 ≤ℤ left.least → pos 0 <ℤ right.least
        → result ≡ int_min (int_max (pos 0) (right.greatest -ℤ pos 1)) left.greatest }
    ensures free { (left.least <ℤ pos 0) ⊎ (right.least ≤ℤ pos 0) → result ≡ int_max (pos 0) (right.greatest -ℤ pos 1) }
{
    let most = most(right);
    if left.least() < 0 {
        return most;
    }
    if right.least() <= 0 {
        return most;
    }
    if left.greatest() < most {
        return left.greatest();
    }
    most
}

// Where remainders by any divisor other than 0 lie.
fn bounds(left: Interval, right: Interval) -> Interval
    ensures sound { (x y z : ℤ) → IsIn x left → IsIn y right → remainder_of x y ≡ Ok z → IsIn z result }
    ensures range { IsRemainderRange left right result }
{
    Interval::from_to(lowest(right), highest(left, right))
}

// Whether 0 is the one member.
fn is_zero_alone(operand: Interval) -> bool
    ensures { IsTrue result ↔ IsZeroAlone operand }
{
    operand.is_within(Interval::point(0))
}

// Where remainders lie: just there, where all quotients by one divisor are the same.
fn remainders(left: Interval, right: Interval) -> Option<Interval>
    ensures sound { (x y z : ℤ) → IsIn x left → IsIn y right → remainder_of x y ≡ Ok z → IsSomeAnd result (λ i. IsIn z i) }
    ensures range { AreRemainders left right result }
    ensures ends { HasOneQuotient left right
        → IfSome result (λ i. Gives remainder_of left right (Ok i.least) × Gives remainder_of left right (Ok i.greatest)) }
{
    if has_one_quotient(left, right) {
        return Some(by_one(left, right));
    }
    if is_zero_alone(right) {
        return None;
    }
    Some(bounds(left, right))
}

/// What floor division leaves of members.
pub(crate) fn remainder_by(left: Interval, right: Interval) -> Found
    ensures told { Tells remainder_of left right result }
    ensures range { AreRemainders left right result.value }
    ensures ends { HasOneQuotient left right → AreEndsGiven remainder_of left right result }
{
    Found {
        value: remainders(left, right),
        may_overflow: false,
        may_divide_by_zero: right.has(0),
    }
}
