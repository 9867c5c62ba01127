//! The flat machine.

use crate::processor::ProcessorState;
use instruction_steps::UniformState;
use superstep_machine::Key;
use write_rules::Entry;

/// The flat machine: the uniform part, the processors of the range, the value of each cell, what
/// the writers that are held for a cell come to, and the least key that was noted.
#[derive(Drop)]
pub struct Machine {
    pub uniform: UniformState,
    pub processors: Vec<ProcessorState>,
    pub memory: Vec<i64>,
    pub held: Vec<Option<Entry>>,
    pub key: Option<Key>,
}
