//! Why a run is refused.

use thiserror::Error;

/// Why a run is refused. They are judged in this order, all but the last two before anything of it is done.
#[derive(Clone, Copy, Debug, PartialEq, Eq, Error)]
pub enum RunRefusal {
    /// E13: there are no workers, or more than 32.
    #[error("E13 BadWorkers")]
    BadWorkers,
    /// E12: the map has not one module for each worker, or fewer places than the code has cells.
    #[error("E12 BadMap")]
    BadMap,
    /// E11: the input has more values than the code has cells.
    #[error("E11 InputTooLong")]
    InputTooLong,
    /// E16: memory was refused.
    #[error("E16 OutOfMemory")]
    OutOfMemory,
    /// E18: the run came past the reserve of output items and exchanges that it was given.
    #[error("E18 OutOfReserve")]
    OutOfReserve,
}
