//! Why a map cannot be made.

use thiserror::Error;

/// Why a map cannot be made. The number of modules is judged first.
#[derive(Clone, Copy, Debug, PartialEq, Eq, Error)]
pub enum MapFault {
    /// There are no modules, or more than 32 (E13).
    #[error("E13 BadWorkers")]
    BadWorkers,
    /// The number of cells is no power of two from 1 to 1,048,576, or a number of the map is out of its range (E12).
    #[error("E12 BadMap")]
    BadMap,
}
