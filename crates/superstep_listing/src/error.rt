//! Why a text is no listing.

ghost use Rattle.std.specs.Prelude.{◌≡◌};
ghost use Rattle.superstep_listing.specs.declared.error.ReadError.TheVariants.{OutOfMemory};

use std::alloc::{AllocError, AllocFailed};
use thiserror::Error;

/// Why a text is no listing. An offset is in bytes, from the text's first byte on.
#[derive(Clone, Copy, Debug, PartialEq, Eq, Error)]
pub enum ListingFault {
    /// The text has more than 8,388,608 bytes (E2).
    #[error("E2 TextTooLong")]
    TextTooLong,
    /// The first line that the format doesn't allow there, or that no LF ends, begins there; where
    /// lines are missing it is the text's length (E15).
    #[error("E15 BadListing at {0}")]
    BadListing(u32),
    /// Memory was refused (E16). Nothing is said of the text.
    #[error("E16 OutOfMemory")]
    OutOfMemory,
}

/// Why the lines of a listing can't be read.
#[derive(Debug, Drop)]
pub(crate) enum ReadError {
    /// Memory was refused. Nothing is said of the text.
    OutOfMemory,
    /// With the number of bytes from the first wrong line on.
    Bad(usize),
}

impl From<AllocError> for ReadError {
    ghost from_gives = { λ _ e. e ≡ OutOfMemory };

    fn from(_e: AllocError) -> ReadError {
        ReadError::OutOfMemory
    }
}

impl<T: Drop> From<AllocFailed<T>> for ReadError {
    ghost from_gives = { λ _ e. e ≡ OutOfMemory };

    fn from(_e: AllocFailed<T>) -> ReadError {
        ReadError::OutOfMemory
    }
}
