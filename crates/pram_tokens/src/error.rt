//! Why a text is no program, or cannot be cut into tokens.

ghost use Rattle.std.specs.Prelude.{◌≡◌};
ghost use Rattle.pram_tokens.specs.declared.error.LexError.TheVariants.{OutOfMemory};

use std::alloc::{AllocError, AllocFailed};
use thiserror::Error;

/// Why a text is no program. An offset is in bytes, from the text's first byte on.
#[derive(Clone, Copy, Debug, PartialEq, Eq, Error)]
pub enum TextFault {
    /// The first byte of 128 or more stands there (E1).
    #[error("E1 NotAscii at {0}")]
    NotAscii(u32),
    /// The text has more than 1,048,576 bytes (E2).
    #[error("E2 TextTooLong")]
    TextTooLong,
    /// The first thing that is no token stands there (E3).
    #[error("E3 BadToken at {0}")]
    BadToken(u32),
    /// The first token with which no program begins stands there, or the text's end where the
    /// tokens run out (E4).
    #[error("E4 Syntax at {0}")]
    Syntax(u32),
    /// The token there opens the 65th block or the 65th level of an expression (E5).
    #[error("E5 TooDeep at {0}")]
    TooDeep(u32),
    /// Memory was refused (E16). The text is neither too long nor has it a byte of 128 or more.
    #[error("E16 OutOfMemory")]
    OutOfMemory,
}

/// Why a text cannot be cut into tokens.
#[derive(Debug, Drop, Error)]
pub enum LexError {
    /// Memory was refused. Nothing is said of the text.
    #[error("E16 OutOfMemory")]
    OutOfMemory,
    /// With the offset of the first thing that is no token.
    #[error("E3 BadToken at {0}")]
    BadToken(u32),
}

impl From<AllocError> for LexError {
    ghost from_gives = { λ _ e. e ≡ OutOfMemory };

    fn from(_e: AllocError) -> LexError {
        LexError::OutOfMemory
    }
}

impl<T: Drop> From<AllocFailed<T>> for LexError {
    ghost from_gives = { λ _ e. e ≡ OutOfMemory };

    fn from(_e: AllocFailed<T>) -> LexError {
        LexError::OutOfMemory
    }
}
