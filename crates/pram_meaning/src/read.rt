//! Reads of shared cells.

/// A read of a shared cell: who reads which cell at which position, counted from 1.
#[derive(Clone, Copy)]
pub struct Read {
    pub processor: i64,
    pub at: usize,
    pub cell: u32,
}
