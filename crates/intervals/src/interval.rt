//! Intervals: sets of 64-bit numbers from a least to a greatest.

ghost use Rattle.std.specs.Prelude.{◌≡◌, ◌↔◌, ℤ, ◌≤ℤ◌, IsTrue, IsSome, IfSome, IfNone};

/// All numbers from a least to a greatest: one at least.
#[derive(Clone, Copy, Debug, PartialEq, Eq)]
pub struct Interval {
    least: i64,
    greatest: i64,
    ghost ordered: { least ≤ℤ greatest },
}

impl Interval {
    ghost use Rattle.std.specs.Prelude.{pos, ◌<ℤ◌, MatchOption};
    ghost use Rattle.pram_values.specs.Value.{fits};
    ghost use Rattle.intervals.specs.Intervals.{IsIn, IsWithin, IsJoin, IsMeet};

    /// The numbers from `least` to `greatest`; none where there is no such number.
    pub fn of(least: i64, greatest: i64) -> Option<Interval>
        // There is an interval exactly where the least is at most the greatest.
        ensures made { IsSome result ↔ (least ≤ℤ greatest) }
        // Its members are the numbers from the least to the greatest.
        ensures members { IfSome result (λ i. (x : ℤ) → IsIn x i ↔ ((least ≤ℤ x) × (x ≤ℤ greatest))) }
        // Its ends are those given.
        ensures ends { IfSome result (λ i. (i.least ≡ least) × (i.greatest ≡ greatest)) }
    {
        if least <= greatest {
            Some(Interval { least, greatest })
        } else {
            None
        }
    }

    // The numbers from a least to a greatest, where it is known that there is one.
    pub(crate) fn from_to(least: i64, greatest: i64) -> Interval
        requires { least ≤ℤ greatest }
        ensures least { result.least ≡ least }
        ensures greatest { result.greatest ≡ greatest }
    {
        Interval { least, greatest }
    }

    /// One number alone.
    pub fn point(value: i64) -> Interval
        // The one member of a point is its number.
        ensures member { (x : ℤ) → IsIn x result ↔ (x ≡ value) }
        // Both ends are the number.
        ensures ends { (result.least ≡ value) × (result.greatest ≡ value) }
    {
        Interval {
            least: value,
            greatest: value,
        }
    }

    /// All numbers of 64 bits.
    pub fn all() -> Interval
        // The members are exactly the numbers of 64 bits.
        ensures { (x : ℤ) → IsIn x result ↔ IsTrue (fits x) }
    {
        Interval {
            least: i64::MIN,
            greatest: i64::MAX,
        }
    }

    /// The least member.
    pub fn least(self) -> i64
        // The result is the lower end.
        ensures { result ≡ self.least }
    {
        self.least
    }

    /// The greatest member.
    pub fn greatest(self) -> i64
        // The result is the upper end.
        ensures { result ≡ self.greatest }
    {
        self.greatest
    }

    /// Whether a number is a member.
    pub fn has(self, value: i64) -> bool
        // The result says whether the number is a member.
        ensures { IsTrue result ↔ IsIn value self }
    {
        self.least <= value && value <= self.greatest
    }

    /// Whether there is one member alone.
    pub fn is_point(self) -> bool
        // The result says whether the ends are the same.
        ensures { IsTrue result ↔ (self.least ≡ self.greatest) }
    {
        self.least == self.greatest
    }

    /// Whether each member is one of the other.
    pub fn is_within(self, other: Interval) -> bool
        // The result says whether each member is one of the other interval.
        ensures { IsTrue result ↔ IsWithin self other }
    {
        other.least <= self.least && self.greatest <= other.greatest
    }

    /// The least interval that holds both.
    pub fn join(self, other: Interval) -> Interval
        // The result holds both intervals, and is within each that does.
        ensures { IsJoin self other result }
    {
        Interval {
            least: self.least.min(other.least),
            greatest: self.greatest.max(other.greatest),
        }
    }

    /// The numbers in both; none where there is no such number.
    pub fn meet(self, other: Interval) -> Option<Interval>
        // There is no result exactly where no number is in both, and else its members are exactly those in both.
        ensures { IsMeet self other result }
    {
        Interval::of(
            self.least.max(other.least),
            self.greatest.min(other.greatest),
        )
    }

    // The members below 0.
    pub(crate) fn below_zero(self) -> Option<Interval>
        ensures { MatchOption result ((x : ℤ) → IsIn x self → pos 0 ≤ℤ x) (λ i. (x : ℤ) → IsIn x i ↔ (IsIn x self × x <ℤ pos 0)) }
    {
        if self.least >= 0 {
            return None;
        }
        if self.greatest < 0 {
            return Some(self);
        }
        Some(Interval {
            least: self.least,
            greatest: -1,
        })
    }

    // The members above 0.
    pub(crate) fn above_zero(self) -> Option<Interval>
        ensures { MatchOption result ((x : ℤ) → IsIn x self → x ≤ℤ pos 0) (λ i. (x : ℤ) → IsIn x i ↔ (IsIn x self × pos 0 <ℤ x)) }
    {
        if self.greatest <= 0 {
            return None;
        }
        if self.least > 0 {
            return Some(self);
        }
        Some(Interval {
            least: 1,
            greatest: self.greatest,
        })
    }
}
