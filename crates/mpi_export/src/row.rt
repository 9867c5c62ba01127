//! The instructions of a plan for one memory, with what stands before each.

use superstep_instructions::Instr;

/// An instruction, and what its loop is to it.
#[derive(Clone, Copy)]
pub(crate) struct Row {
    pub(crate) instr: Instr,
    /// The loop before it ends.
    pub(crate) ends: bool,
    /// Others jump to it.
    pub(crate) target: bool,
    /// A loop begins with it.
    pub(crate) begins: bool,
    /// It sets a register that its loop hasn't set before.
    pub(crate) fresh: bool,
}
