//! What is drawn of a run.

use crate::flows::column::Column;

/// What is drawn of a run; for `write_flow`.
#[derive(Drop)]
pub struct Drawing {
    /// The numbers of the first and the last statement that are asked for.
    pub from: usize,
    pub to: usize,
    /// How many statements the run has.
    pub count: usize,
    /// How many of those that are asked for touched shared memory, one that faulted among them.
    pub touching: usize,
    /// The values of the first cells before the first statement that did; the others held 0.
    pub before: Vec<i64>,
    /// The statements that are drawn.
    pub columns: Vec<Column>,
}
