//! Faults of a statement on their way.

use pram_values::{Kind, Place};

/// A fault of a statement: its position, counted from 1, its place and its kind.
#[derive(Clone, Copy)]
pub struct Key {
    pub at: usize,
    pub place: Place,
    pub kind: Kind,
}
