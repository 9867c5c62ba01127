//! A power of two as a divisor.

ghost use Rattle.std.specs.Prelude.{◌≡◌, ◌≢◌, ◌≤◌, ◌<◌, ◌-◌, ◌%◌, ◌^◌, ℕ, pos, Ok, MatchOption};
ghost use Rattle.pram_values.specs.Division.{quotient, remainder_of};

/// A power of two from 1 to 2 ^ 62: a division by it is a shift, and what it leaves are the low bits.
#[derive(Clone, Copy, Debug)]
pub struct PowerOfTwo {
    pub(crate) shift: u32,
    mask: u64,
    ghost few: { shift ≤ 62 },
    ghost low: { mask ≡ 2 ^ shift - 1 },
}

impl PowerOfTwo {
    /// The power of two of that value.
    pub fn new(value: i64) -> Option<PowerOfTwo>
        // There is one just for the powers of two from 1 to 2 ^ 62, and it has that value.
        ensures { MatchOption result ((k : ℕ) → k ≤ 62 → value ≢ pos (2 ^ k)) (λ it. pos (2 ^ it.shift) ≡ value) }
    {
        'shifts: for shift in 0..63u32 {
            if value == 1i64 << shift {
                let mask = (1u64 << shift) - 1;
                return Some(PowerOfTwo { shift, mask });
            }
        }
        None
    }

    /// The power itself.
    #[inline(always)]
    pub fn value(self) -> i64
        // The value is that of the power.
        ensures { result ≡ pos (2 ^ self.shift) }
    {
        1i64 << self.shift
    }

    /// `x div d`, rounded toward minus infinity.
    #[inline(always)]
    pub fn divide(self, x: i64) -> i64
        // The result is the quotient rounded down, as `div` has it.
        ensures { quotient x (pos (2 ^ self.shift)) ≡ Ok result }
    {
        x >> self.shift
    }

    // What is left of a number that isn't negative.
    #[inline(always)]
    fn rest_of(self, number: u64) -> u64
        requires small { number < 2 ^ 63 }
        ensures { result ≡ number % 2 ^ self.shift }
    {
        number & self.mask
    }

    /// `x mod d`, what floor division leaves.
    #[inline(always)]
    pub fn remainder(self, x: i64) -> i64
        // The result is what floor division leaves, as `mod` has it.
        ensures { remainder_of x (pos (2 ^ self.shift)) ≡ Ok result }
    {
        if x >= 0 {
            self.rest_of(x.cast_unsigned()).cast_signed()
        } else {
            (self.mask - self.rest_of((-1 - x).cast_unsigned())).cast_signed()
        }
    }
}
