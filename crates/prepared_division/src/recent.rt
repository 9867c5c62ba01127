//! The divisors of divisions that were made before.

ghost use Rattle.std.specs.Prelude.{◌≡◌, pos, IfSome};
ghost use Rattle.pram_values.specs.Division.{quotient, remainder_of};

use crate::divisor::Divisor;
use pram_values::{Kind, divide, remainder};

// How often a divisor comes, with no other one of its slot between, before it is prepared.
const OFTEN: u32 = 4;

// A divisor, how often it came one time behind the other, and what it is prepared as.
#[derive(Clone, Copy, Debug, Drop)]
struct Slot {
    value: i64,
    came: u32,
    prepared: Option<Divisor>,
}

impl Slot {
    fn empty() -> Slot {
        Slot {
            value: 0,
            came: 0,
            prepared: None,
        }
    }

    // The divisor where it is prepared. It is counted where it isn't.
    #[inline(always)]
    fn prepared(&mut self, y: i64) -> Option<Divisor>
        ensures { IfSome result (λ it. pos it.divisor ≡ y) }
    {
        if let Some(divisor) = self.prepared {
            if divisor.value() == y {
                return Some(divisor);
            }
        }
        self.count(y);
        None
    }

    #[inline(never)]
    fn count(&mut self, y: i64) {
        if self.value != y {
            self.value = y;
            self.came = 0;
            self.prepared = None;
        } else if self.came < OFTEN {
            self.came += 1;
        } else {
            self.prepared = Divisor::new(y);
        }
    }
}

/// The last four divisors whose low bits differ. One that comes again and again is prepared.
#[derive(Clone, Copy, Debug, Drop)]
pub struct RecentDivisors {
    slots: [Slot; 4],
}

impl RecentDivisors {
    /// No division was made yet.
    pub fn none() -> RecentDivisors {
        RecentDivisors {
            slots: [Slot::empty(); 4],
        }
    }

    // The divisor where it is prepared.
    #[inline(always)]
    fn prepared(&mut self, y: i64) -> Option<Divisor>
        ensures { IfSome result (λ it. pos it.divisor ≡ y) }
    {
        self.slots[(y.cast_unsigned() % 4) as usize].prepared(y)
    }

    /// `x div y`, as `pram_values::divide` has it.
    #[inline(always)]
    pub fn divide(&mut self, x: i64, y: i64) -> Result<i64, Kind>
        // The result is the quotient rounded down or its fault, whatever was divided before.
        ensures { result ≡ quotient x y }
    {
        match self.prepared(y) {
            Some(divisor) => Ok(divisor.divide(x)),
            None => divide(x, y),
        }
    }

    /// `x mod y`, as `pram_values::remainder` has it.
    #[inline(always)]
    pub fn remainder(&mut self, x: i64, y: i64) -> Result<i64, Kind>
        // The result is what floor division leaves or its fault, whatever was divided before.
        ensures { result ≡ remainder_of x y }
    {
        match self.prepared(y) {
            Some(divisor) => Ok(divisor.remainder(x)),
            None => remainder(x, y),
        }
    }
}
