//! Sums, differences, products and negatives of values.

ghost use Rattle.std.specs.Prelude.{◌≡◌, ◌+ℤ◌, ◌-ℤ◌, ◌*ℤ◌, neg_ℤ};
ghost use Rattle.pram_values.specs.Value.{checked};

use crate::kind::Kind;

/// `x + y`; Overflow where no `i64` is the sum.
#[tactic(auto, using(crate::proofs::Checked::checked_some, crate::proofs::Checked::checked_none))]
pub fn add(x: i64, y: i64) -> Result<i64, Kind>
    // The result is the sum of the integers, or Overflow where that is no number of 64 bits.
    ensures { result ≡ checked (x +ℤ y) }
{
    match x.checked_add(y) {
        Some(sum) => Ok(sum),
        None => Err(Kind::Overflow),
    }
}

/// `x - y`; Overflow where no `i64` is the difference.
#[tactic(auto, using(crate::proofs::Checked::checked_some, crate::proofs::Checked::checked_none))]
pub fn subtract(x: i64, y: i64) -> Result<i64, Kind>
    // The result is the difference of the integers, or Overflow where that is no number of 64 bits.
    ensures { result ≡ checked (x -ℤ y) }
{
    match x.checked_sub(y) {
        Some(difference) => Ok(difference),
        None => Err(Kind::Overflow),
    }
}

/// `x * y`; Overflow where no `i64` is the product.
#[tactic(auto, using(crate::proofs::Checked::checked_some, crate::proofs::Checked::checked_none))]
pub fn multiply(x: i64, y: i64) -> Result<i64, Kind>
    // The result is the product of the integers, or Overflow where that is no number of 64 bits.
    ensures { result ≡ checked (x *ℤ y) }
{
    match x.checked_mul(y) {
        Some(product) => Ok(product),
        None => Err(Kind::Overflow),
    }
}

/// `-x`; Overflow for the least `i64`.
#[tactic(auto, using(crate::proofs::Checked::checked_some, crate::proofs::Checked::checked_none))]
pub fn negate(x: i64) -> Result<i64, Kind>
    // The result is the negative of the integer, or Overflow where that is no number of 64 bits.
    ensures { result ≡ checked (neg_ℤ x) }
{
    match x.checked_neg() {
        Some(negative) => Ok(negative),
        None => Err(Kind::Overflow),
    }
}
