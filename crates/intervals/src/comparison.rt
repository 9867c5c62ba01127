//! Comparisons of two numbers.

ghost use Rattle.std.specs.Prelude.{◌≡◌, ℤ, not};

/// A comparison of two numbers.
#[derive(Clone, Copy, Debug, PartialEq, Eq)]
pub enum Comparison {
    Equal,
    Unequal,
    Less,
    AtMost,
    Greater,
    AtLeast,
}

impl Comparison {
    ghost use Rattle.intervals.specs.Comparisons.{holds};

    /// The comparison that holds where this one doesn't.
    pub fn opposite(self) -> Comparison
        // The result holds exactly where the comparison does not.
        ensures { (x y : ℤ) → holds result x y ≡ not (holds self x y) }
    {
        match self {
            Comparison::Equal => Comparison::Unequal,
            Comparison::Unequal => Comparison::Equal,
            Comparison::Less => Comparison::AtLeast,
            Comparison::AtMost => Comparison::Greater,
            Comparison::Greater => Comparison::AtMost,
            Comparison::AtLeast => Comparison::Less,
        }
    }

    /// The comparison that holds for the numbers in the other order.
    pub fn mirrored(self) -> Comparison
        // The result holds of two numbers exactly where the comparison holds of them in the other order.
        ensures { (x y : ℤ) → holds result x y ≡ holds self y x }
    {
        match self {
            Comparison::Equal => Comparison::Equal,
            Comparison::Unequal => Comparison::Unequal,
            Comparison::Less => Comparison::Greater,
            Comparison::AtMost => Comparison::AtLeast,
            Comparison::Greater => Comparison::Less,
            Comparison::AtLeast => Comparison::AtMost,
        }
    }
}
