//! What is found of two programs.

ghost use Rattle.std.specs.Prelude.{◌≤◌};

use crate::difference::Difference;
use crate::score::Score;

/// An input on which two programs differ, and what differs first on it.
#[derive(Drop)]
pub struct FoundDifference {
    pub input: Vec<i64>,
    pub difference: Difference,
}

/// What is found of two programs on some inputs: how many inputs there are, how many of them count, on how many of these the programs come
/// to the same, how the second does on them, and the first of these on which they don't, in order.
#[derive(Drop)]
pub struct Comparison {
    pub inputs: u64,
    pub counting: u64,
    pub same: u64,
    pub score: Score,
    pub told: Vec<FoundDifference>,
    ghost parts: { same ≤ counting },
    ghost some: { counting ≤ inputs },
    ghost few_correct: { score.correct ≤ counting },
    ghost few_faulted: { score.faulted ≤ counting },
    ghost few_going_on: { score.going_on ≤ counting },
    ghost few_above: { score.above ≤ counting },
}
