//! A worker of a run.

use crate::buffers::Buffers;
use crate::way::Way;
use combining::{Asks, Cells};
use superstep_machine::Purpose;
use worker_steps::WorkerState;

/// A worker of a run: what its instructions act on, the cells of its module, the asks that it sent and that have no answer yet, by worker
/// the words of the asks that came to its module and aren't answered, room for the words of an exchange and for a value of each
/// processor, how it stands with its run, and what its next exchange is for.
#[derive(Drop)]
pub struct Local {
    pub steps: WorkerState,
    pub cells: Cells,
    pub sent: Asks,
    pub asked: Vec<Vec<u64>>,
    pub buffers: Buffers,
    pub values: Vec<i64>,
    pub way: Way,
    pub purpose: Purpose,
}
