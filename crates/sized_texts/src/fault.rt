//! Why a text with sizes has no expansion.

ghost use Rattle.std.specs.Prelude.{◌≡◌};
ghost use Rattle.sized_texts.specs.declared.fault.SizeFault.TheVariants.{OutOfMemory};

use crate::reason::Reason;
use std::alloc::{AllocError, AllocFailed};
use thiserror::Error;

/// Why a text with sizes has no expansion. An offset is in bytes, from the text's first byte on.
#[derive(Debug, Drop, Error)]
pub enum SizeFault {
    /// A size line or an expression is wrong there (E19).
    #[error("E19 BadSize at {0} {1}")]
    BadSize(u32, Reason),
    /// The expansion has more than 1,048,576 bytes (E2).
    #[error("E2 TextTooLong")]
    TooLong,
    /// The text declares no size of the name that is given with this number, from 0.
    #[error("P1 no size of this name")]
    NotDeclared(usize),
    /// Memory was refused (E16). Nothing is said of the text.
    #[error("E16 OutOfMemory")]
    OutOfMemory,
}

impl From<AllocError> for SizeFault {
    ghost from_gives = { λ _ e. e ≡ OutOfMemory };

    fn from(_e: AllocError) -> SizeFault {
        SizeFault::OutOfMemory
    }
}

impl<T: Drop> From<AllocFailed<T>> for SizeFault {
    ghost from_gives = { λ _ e. e ≡ OutOfMemory };

    fn from(_e: AllocFailed<T>) -> SizeFault {
        SizeFault::OutOfMemory
    }
}
