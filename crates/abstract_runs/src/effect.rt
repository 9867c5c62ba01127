//! What assignments give.

use crate::reach::Reach;
use intervals::Interval;

/// What an attempt at an assignment gives: a value of the interval, and the cells that it may go to, if any.
#[derive(Clone, Copy, Debug, PartialEq, Eq)]
pub struct Effect {
    pub value: Interval,
    pub reach: Option<Reach>,
}
