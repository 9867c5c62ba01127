//! Floor division and its remainder.

ghost use Rattle.std.specs.Prelude.{◌≡◌, ◌≢◌, ◌+ℤ◌, ◌*ℤ◌, ◌<ℤ◌, ◌≤ℤ◌, ◌-ℤ◌, ℤ, pos, neg_ℤ, int_rem};
ghost use Rattle.pram_values.specs.Division.{quotient, remainder_of, floor_quotient, floor_remainder, IsRemainderFor};

use crate::kind::Kind;

/// `x div d`, rounded toward minus infinity; DivideByZero for a zero divisor, Overflow where no
/// `i64` is the quotient.
#[tactic(auto, using(crate::proofs::Checked::checked_some))]
pub fn divide(x: i64, d: i64) -> Result<i64, Kind>
    // The result is the quotient rounded down, DivideByZero for a zero divisor, or Overflow where the quotient is no
    // number of 64 bits.
    ensures { result ≡ quotient x d }
{
    if d == 0 {
        return Err(Kind::DivideByZero);
    }
    if d > 0 {
        if x >= 0 {
            return Ok(x / d);
        }
        return Ok(-1 - (-1 - x) / d);
    }
    if x > 0 {
        return Ok(quotient_below(x, d));
    }
    match x.checked_div(d) {
        Some(q) => Ok(q),
        None => Err(Kind::Overflow),
    }
}

// The quotient of a number above 0 by one below 0.
#[tactic(auto, using(crate::proofs::Divisions::above_below, crate::proofs::Divisions::before_fits, crate::proofs::Divisions::rounded_fits, crate::proofs::Divisions::step_fits))]
fn quotient_below(x: i64, d: i64) -> i64
    requires above { pos 0 <ℤ x }
    requires below { d <ℤ pos 0 }
    ensures { result ≡ floor_quotient x d }
{
    (x - 1) / d - 1
}

/// `x mod d`, what floor division leaves; DivideByZero for a zero divisor, and no other fault.
pub fn remainder(x: i64, d: i64) -> Result<i64, Kind>
    // The result is what floor division leaves, or DivideByZero for a zero divisor; there is no other fault.
    ensures { result ≡ remainder_of x d }
{
    if d == 0 {
        return Err(Kind::DivideByZero);
    }
    if d > 0 {
        if x >= 0 {
            return Ok(x % d);
        }
        return Ok(remainder_above(x, d));
    }
    if x > 0 {
        return Ok(remainder_below(x, d));
    }
    match x.checked_rem(d) {
        Some(r) => Ok(r),
        None => Ok(0),
    }
}

// What is left of a number below 0 by a divisor above 0.
#[tactic(auto, using(crate::proofs::Divisions::left_above))]
fn remainder_above(x: i64, d: i64) -> i64
    requires below { x <ℤ pos 0 }
    requires above { pos 0 <ℤ d }
    ensures { result ≡ floor_remainder x d }
{
    let rest = remainder_of_complement(x, d);
    (d - 1) - rest
}

// What is left of `-1 - x`.
fn remainder_of_complement(x: i64, d: i64) -> i64
    requires below { x <ℤ pos 0 }
    requires above { pos 0 <ℤ d }
    ensures value { result ≡ int_rem (neg_ℤ (pos 1) -ℤ x) d }
    ensures least { pos 0 ≤ℤ result }
    ensures most { result <ℤ d }
{
    (-1 - x) % d
}

// What is left of a number above 0 by a divisor below 0.
#[tactic(auto, using(crate::proofs::Divisions::left_below, crate::proofs::Divisions::before_fits))]
fn remainder_below(x: i64, d: i64) -> i64
    requires above { pos 0 <ℤ x }
    requires below { d <ℤ pos 0 }
    ensures { result ≡ floor_remainder x d }
{
    (x - 1) % d + 1 + d
}

/// Floor division splits a number into a multiple of the divisor and the remainder, which lies
/// between 0 and the divisor.
#[tactic(auto, using(crate::proofs::Divisions::splits, crate::proofs::Divisions::remainder_is_within))]
pub fn division_law()
    // A number is the divisor times the floor quotient, plus the remainder.
    ensures splits { (x d : ℤ) → x ≡ d *ℤ floor_quotient x d +ℤ floor_remainder x d }
    // For a divisor other than 0 the remainder is 0 or has the divisor's sign, and its absolute value is less than the
    // divisor's.
    ensures within { (x d : ℤ) → d ≢ pos 0 → IsRemainderFor d (floor_remainder x d) }
{}
