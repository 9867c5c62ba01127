//! Writes to shared cells.

/// A write to a cell: the index of the processor that makes it, and the value.
#[derive(Clone, Copy, Debug, PartialEq, Eq)]
pub struct Write {
    pub processor: i64,
    pub value: i64,
}
