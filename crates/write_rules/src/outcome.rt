//! How a run comes out.

use crate::fault::Fault;

/// How a run comes out within a bound on its statements. The output has an item for each `print`.
#[derive(Drop)]
pub enum Outcome {
    /// The program is over: its output, and the values of all cells by number.
    Ended { output: Vec<i64>, memory: Vec<i64> },
    /// A statement faulted: the output before it.
    Faulted { fault: Fault, output: Vec<i64> },
    /// One statement more would begin than the bound allows: the output so far.
    GoesOn { output: Vec<i64> },
}
