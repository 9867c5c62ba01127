//! What an operation comes to on all members of intervals.

use crate::interval::Interval;

/// What an operation comes to on all members of intervals.
#[derive(Clone, Copy, Debug, PartialEq, Eq)]
pub struct Found {
    /// Holds each value that the operation gives; `None` says that it always faults.
    pub value: Option<Interval>,
    /// Whether it overflows on some members.
    pub may_overflow: bool,
    /// Whether its divisor is zero for some members.
    pub may_divide_by_zero: bool,
}
