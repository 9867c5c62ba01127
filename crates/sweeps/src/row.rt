//! A row of a table.

/// A size, and the number that was found at it.
#[derive(Clone, Copy, Debug, PartialEq, Eq)]
pub struct Row {
    pub size: u64,
    pub number: u128,
}
