//! A divisor from 2 on, and its reciprocal.

ghost use Rattle.std.specs.Prelude.{◌≡◌, ◌<◌, ◌≤◌, ◌^◌, ◌+◌, ◌/◌, ◌%◌, ◌⊎◌, ◌<ℤ◌, pos, Ok, MatchOption};
ghost use Rattle.pram_values.specs.Division.{floor_quotient, floor_remainder, quotient, remainder_of};

/// A divisor from 2 on. It takes a division of 128 bits to prepare one, and then a multiplication for each quotient.
#[derive(Clone, Copy, Debug)]
pub struct Divisor {
    pub(crate) divisor: u64,
    // 2 ^ (64 + shift) / divisor, and one more: a number below 2 ^ 63 times it, without its low 64 + shift bits, is the number divided by
    // the divisor.
    factor: u64,
    shift: u32,
    ghost least: { 2 ≤ divisor },
    ghost most: { divisor < 2 ^ 63 },
    ghost few: { shift ≤ 62 },
    ghost reached: { divisor ≤ 2 ^ (shift + 1) },
    ghost divides: { factor ≡ 2 ^ (64 + shift) / divisor + 1 },
}

// The least shift for which 2 ^ (shift + 1) is the divisor or more.
fn shift_for(divisor: u64) -> u32
    requires least { 2 ≤ divisor }
    requires most { divisor < 2 ^ 63 }
    ensures few { result ≤ 62 }
    ensures reached { divisor ≤ 2 ^ (result + 1) }
    ensures close { (result ≡ 0) ⊎ (2 ^ result < divisor) }
{
    'shifts: for shift in 0..62u32 {
        if divisor <= 2u64 << shift {
            return shift;
        }
    }
    62
}

// 2 ^ (64 + shift) by the divisor, and one more.
fn factor_for(divisor: u64, shift: u32) -> u64
    requires least { 2 ≤ divisor }
    requires most { divisor < 2 ^ 63 }
    requires few { shift ≤ 62 }
    requires close { (shift ≡ 0) ⊎ (2 ^ shift < divisor) }
    ensures { result ≡ 2 ^ (64 + shift) / divisor + 1 }
{
    let power = 1u128 << (64 + shift);
    (power / u128::from(divisor)) as u64 + 1
}

impl Divisor {
    /// The divisor of that value, from 2 on.
    pub fn new(value: i64) -> Option<Divisor>
        // There is one just for values from 2 on, and it has that value.
        ensures { MatchOption result (value <ℤ pos 2) (λ it. pos it.divisor ≡ value) }
    {
        if value < 2 {
            return None;
        }
        let divisor = value.cast_unsigned();
        let shift = shift_for(divisor);
        let factor = factor_for(divisor, shift);
        Some(Divisor {
            divisor,
            factor,
            shift,
        })
    }

    /// The divisor itself.
    #[inline(always)]
    pub fn value(self) -> i64
        // The value is that of the divisor.
        ensures { result ≡ pos self.divisor }
    {
        self.divisor.cast_signed()
    }

    // The quotient of a number that isn't negative.
    #[inline(always)]
    #[tactic(auto, using(crate::proofs::Factors::by_factor, crate::proofs::Factors::product_fits))]
    fn quotient_of(self, number: u64) -> u64
        requires small { number < 2 ^ 63 }
        ensures { result ≡ number / self.divisor }
    {
        let product = u128::from(number) * u128::from(self.factor);
        ((product >> 64) as u64) >> self.shift
    }

    /// `x div d`, rounded toward minus infinity.
    #[inline(always)]
    pub fn divide(self, x: i64) -> i64
        // The result is the quotient rounded down, as `div` has it.
        ensures { quotient x (pos self.divisor) ≡ Ok result }
    {
        if x >= 0 {
            self.quotient_of(x.cast_unsigned()).cast_signed()
        } else {
            -1 - self.quotient_of((-1 - x).cast_unsigned()).cast_signed()
        }
    }

    // What is left of a number that isn't negative.
    #[inline(always)]
    fn rest_of(self, number: u64) -> u64
        requires small { number < 2 ^ 63 }
        ensures { result ≡ number % self.divisor }
    {
        number - self.divisor * self.quotient_of(number)
    }

    /// `x mod d`, what floor division leaves.
    #[inline(always)]
    pub fn remainder(self, x: i64) -> i64
        // The result is what floor division leaves, as `mod` has it.
        ensures { remainder_of x (pos self.divisor) ≡ Ok result }
    {
        if x >= 0 {
            self.rest_of(x.cast_unsigned()).cast_signed()
        } else {
            (self.divisor - 1 - self.rest_of((-1 - x).cast_unsigned())).cast_signed()
        }
    }
}
