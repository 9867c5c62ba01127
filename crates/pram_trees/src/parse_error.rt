//! Why a list of tokens is no program.

ghost use Rattle.std.specs.Prelude.{◌≡◌};
ghost use Rattle.pram_trees.specs.declared.parse_error.ParseError.TheVariants.{OutOfMemory};

use std::alloc::{AllocError, AllocFailed};
use thiserror::Error;

/// Why a list of tokens has no tree.
#[derive(Debug, Drop, Error)]
pub enum ParseError {
    /// Memory was refused. Nothing is said of the tokens.
    #[error("E16 OutOfMemory")]
    OutOfMemory,
    /// With the number of tokens from the first one on with which no program begins, or 0 where
    /// the tokens run out (E4).
    #[error("E4 Syntax, {0} tokens from the end")]
    Syntax(usize),
    /// With the number of tokens from the one on that opens a level too many (E5).
    #[error("E5 TooDeep, {0} tokens from the end")]
    TooDeep(usize),
}

impl From<AllocError> for ParseError {
    ghost from_gives = { λ _ e. e ≡ OutOfMemory };

    fn from(_e: AllocError) -> ParseError {
        ParseError::OutOfMemory
    }
}

impl<T: Drop> From<AllocFailed<T>> for ParseError {
    ghost from_gives = { λ _ e. e ≡ OutOfMemory };

    fn from(_e: AllocFailed<T>) -> ParseError {
        ParseError::OutOfMemory
    }
}
