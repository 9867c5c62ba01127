//! What kinds say besides: how many vertices a graph has, and of which numbers sorted ones are.

ghost use Rattle.std.specs.Prelude.{◌≤◌, ◌≤ℤ◌};

/// How many vertices a graph has: at least the two ends of an edge.
#[derive(Clone, Copy, Debug, PartialEq, Eq)]
pub struct Vertices {
    pub count: u32,
    ghost several: { 2 ≤ count },
}

/// Numbers from `low` to `high`, both of them among these.
#[derive(Clone, Copy, Debug, PartialEq, Eq)]
pub struct Bounds {
    pub low: i64,
    pub high: i64,
    ghost ordered: { low ≤ℤ high },
}
