//! Where a fault may come.

use all_inputs::Reason;

/// A fault of some kind that may come: the position at which it may, and why.
#[derive(Clone, Copy, Debug, PartialEq, Eq)]
pub struct Finding {
    pub position: usize,
    pub reason: Reason,
}
