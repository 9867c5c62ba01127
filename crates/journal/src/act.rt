//! What one processor does in a statement.

use crate::reading::Reading;

/// What one processor did in a statement.
#[derive(Drop)]
pub struct Act {
    /// Its index; the one processor outside pardo has none.
    pub processor: Option<i64>,
    /// The shared cells that it read, in order, one for each read.
    pub reads: Vec<u32>,
    /// The shared cell that it wrote.
    pub write: Option<u32>,
    /// The position of each of those reads, and what it gave.
    pub readings: Vec<Reading>,
    /// What it wrote there, which under `priority` or `sum` may be other than what the cell holds then.
    pub written: Option<i64>,
}
