//! Inputs of so many values, each of an interval.

use intervals::Interval;

/// The inputs of so many values, each of an interval.
#[derive(Clone, Copy, Debug, PartialEq, Eq)]
pub struct Scope {
    pub values: u32,
    pub of: Interval,
}
