//! Why a search goes no further.

use crate::cycle::Cycle;

/// Why a search goes no further.
#[derive(Clone, Copy, Drop)]
pub(crate) enum Stop {
    /// A loop never ends.
    Cycle(Cycle),
    /// Nothing is known: the run faults, or meets its bound, or memory was refused.
    Unknown,
}
