//! A loop that never ends.

/// A `while` outside pardo that comes back to the state that it had.
#[derive(Clone, Copy, Debug, Drop, PartialEq, Eq)]
pub struct Cycle {
    /// Its line.
    pub line: u32,
    /// How many statements run from the one time to the other.
    pub statements: u32,
}
