//! Faults of statements.

use pram_values::{Kind, Place};

/// A statement that faults: what is wrong, the line of its first token (1 plus the number of LF
/// bytes before it), and where.
#[derive(Clone, Copy, Debug, PartialEq, Eq)]
pub struct Fault {
    pub kind: Kind,
    pub line: u32,
    pub place: Place,
}
