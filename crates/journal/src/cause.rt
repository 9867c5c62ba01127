//! Why statements fault.

use pram_trees::{Binary, Prefix};
use write_rules::Write;

/// Why a statement faults: the first part of it that comes to no value, with the values that it is made of, or the processors whose
/// accesses conflict.
#[derive(Drop)]
pub enum Cause {
    /// An operation on two values.
    Between {
        left: i64,
        operator: Binary,
        right: i64,
    },
    /// An operation on the value behind it.
    Before {
        operator: Prefix,
        operand: i64,
    },
    /// A subscript that is none of those of a declaration, which goes by its number among the shared ones, counted from 0.
    Beyond {
        entry: usize,
        subscript: i64,
    },
    /// A pardo with these bounds has more indices than there may be processors.
    Wide {
        low: i64,
        high: i64,
        procs: u32,
    },
    /// Those that met read one cell at the same moment.
    Meeting,
    /// These writes go to one cell.
    Writing {
        writes: Vec<Write>,
    },
}
