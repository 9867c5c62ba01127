//! What differs between two runs.

use write_rules::Fault;

/// How a run came out, without its values.
#[derive(Clone, Copy)]
pub enum Ending {
    /// The program is over.
    Ended,
    /// A statement faulted.
    Faulted(Fault),
    /// One statement more would begin than the bound allows.
    GoesOn,
}

/// What differs between a run of a first program and one of a second.
#[derive(Clone, Copy)]
pub enum Difference {
    /// They come out otherwise: one ends, faults or goes on where the other doesn't, or they fault with faults of two kinds.
    Endings {
        first: Ending,
        second: Ending,
    },
    /// Both end, and an output item isn't the same. Items are counted from 1; where an output has no such item, there is none.
    Output {
        item: u64,
        first: Option<i64>,
        second: Option<i64>,
    },
    /// Both end, and a cell isn't the same. It is told by its number in the first program, from 0.
    Cell {
        cell: u64,
        first: Option<i64>,
        second: Option<i64>,
    },
    /// The second ends, and takes more statements than its limit.
    Time {
        taken: u64,
        limit: u64,
    },
    /// The second ends, and takes more work than its limit.
    Work {
        taken: u64,
        limit: u64,
    },
}
