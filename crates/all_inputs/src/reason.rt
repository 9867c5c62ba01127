//! Why a fault may come.

use intervals::Interval;
use pram_trees::{Binary, Prefix};

/// Why a fault may come: what is known of the numbers that bring it about.
#[derive(Clone, Copy, Debug, PartialEq, Eq)]
pub enum Reason {
    /// An operator on two operands.
    Operands {
        operator: Binary,
        left: Interval,
        right: Interval,
    },
    /// An operator before an operand.
    Operand {
        operator: Prefix,
        operand: Interval,
    },
    /// A subscript of the declaration with that number.
    Subscript {
        entry: usize,
        subscript: Interval,
    },
    /// The bounds of a pardo.
    Width {
        first: i64,
        last: i64,
    },
    /// Cells that several processors may use at the same time.
    Shared,
    /// The one input of the scope comes to it, and no more is known.
    Single,
}
