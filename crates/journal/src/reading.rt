//! Reads of shared memory.

/// A read of a shared cell.
#[derive(Clone, Copy)]
pub struct Reading {
    /// Its position in the statement, counted from 1.
    pub position: usize,
    /// What it gave.
    pub value: i64,
}
