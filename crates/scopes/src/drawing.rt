//! What is drawn.

ghost use Rattle.std.specs.Prelude.{◌≤ℤ◌};

/// Numbers from `low` to `high`, both of them among these, by the generator that the seed starts.
#[derive(Clone, Copy, Debug, PartialEq, Eq)]
pub struct Drawing {
    pub low: i64,
    pub high: i64,
    pub seed: u64,
    ghost ordered: { low ≤ℤ high },
}
