//! Why a tree is no accepted program.

ghost use Rattle.std.specs.Prelude.{◌≡◌};
ghost use Rattle.pram_names.specs.declared.fault.CheckFault.TheVariants.{OutOfMemory};

use std::alloc::{AllocError, AllocFailed};
use std::fmt;
use thiserror::Error;

/// A number that a program may not pass.
#[derive(Clone, Copy, Debug, PartialEq, Eq, Error)]
pub enum Limit {
    /// At most 1,048,576 shared cells: told at the name with which they are passed.
    #[error("cells")]
    Cells,
    /// From 1 to 16,384 processors: told at the number.
    #[error("procs")]
    Procs,
    /// An array's low bound is at most its high one: told at its name.
    #[error("bounds")]
    Bounds,
    /// At most eight shared reads in a statement: told at the name of the ninth.
    #[error("reads")]
    Reads,
    /// At most 16,384 tokens: told at the end of the text.
    #[error("tokens")]
    Tokens,
}

/// What is wrong at a place.
#[derive(Clone, Copy, Debug, PartialEq, Eq, Error)]
pub enum Cause {
    /// E6: a name that is not in scope.
    #[error("E6 UnknownName")]
    UnknownName,
    /// E7: a name that is declared again in scope.
    #[error("E7 DoubleName")]
    DoubleName,
    /// E8: a name or a statement that is not allowed there.
    #[error("E8 WrongKind")]
    WrongKind,
    /// E9: a `for` variable set inside its body, or a pardo index assigned.
    #[error("E9 AssignedLoopVariable")]
    AssignedLoopVariable,
    /// E10.
    #[error("E10 Limit {0}")]
    Limit(Limit),
}

/// A place of a text: the offset of a token's first byte, or the text's end.
#[derive(Clone, Copy, Debug, PartialEq, Eq)]
pub enum Spot {
    Offset(u32),
    TextEnd,
}

/// Something wrong, and where.
#[derive(Clone, Copy, Debug, PartialEq, Eq)]
pub struct Breach {
    pub spot: Spot,
    pub cause: Cause,
}

// A limit is told without its place.
impl fmt::Display for Breach {
    fn fmt<W: fmt::Write>(&self, f: &mut fmt::Formatter<W>) -> fmt::Result {
        match (self.cause, self.spot) {
            (Cause::Limit(limit), _) => write!(f, "E10 Limit {limit}"),
            (cause, Spot::Offset(at)) => write!(f, "{cause} at {at}"),
            (cause, Spot::TextEnd) => write!(f, "{cause}"),
        }
    }
}

/// Why `check` gives no program.
#[derive(Clone, Copy, Debug, PartialEq, Eq, Error)]
pub enum CheckFault {
    /// The first thing that is wrong.
    #[error("{0}")]
    Refused(Breach),
    /// E16: a request for memory was refused.
    #[error("E16 OutOfMemory")]
    OutOfMemory,
}

impl From<AllocError> for CheckFault {
    ghost from_gives = { λ _ e. e ≡ OutOfMemory };

    fn from(_e: AllocError) -> CheckFault {
        CheckFault::OutOfMemory
    }
}

impl<T: Drop> From<AllocFailed<T>> for CheckFault {
    ghost from_gives = { λ _ e. e ≡ OutOfMemory };

    fn from(_e: AllocFailed<T>) -> CheckFault {
        CheckFault::OutOfMemory
    }
}
