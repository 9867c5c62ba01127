//! A run of the flat machine between two instructions.

use crate::machine::Machine;
use superstep_machine::Key;

/// How it stands with a run.
#[derive(Clone, Copy, Debug, PartialEq, Eq)]
pub enum Stand {
    /// It goes on at its place.
    On,
    /// It is over: by a key, or else by whether it came to the code's end.
    Over { key: Option<Key>, ended: bool },
    /// The code led it nowhere.
    Lost,
}

/// A run between two instructions: the machine, the place of the next instruction, and how it
/// stands.
#[derive(Drop)]
pub struct Run {
    pub machine: Machine,
    pub place: u32,
    pub stand: Stand,
}
