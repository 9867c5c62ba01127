//! Why the steps of a run are not written to the end.

ghost use Rattle.std.specs.Prelude.{◌≡◌};
ghost use Rattle.step_text.specs.Stops.{stop_of};

use program_texts::{Refusal, Stop};
use thiserror::Error;

/// Why the steps of a run are not written to the end.
#[derive(Clone, Copy, Debug, Drop, PartialEq, Eq, Error)]
pub enum StreamFailure {
    /// E11: the input has more values than the program has cells.
    #[error("E11 InputTooLong")]
    InputTooLong,
    /// E16: memory was refused.
    #[error("E16 OutOfMemory")]
    OutOfMemory,
    /// E17: the writer failed.
    #[error("E17 WriteFailed")]
    WriteFailed,
}

impl<'a> From<StreamFailure> for Stop<'a> {
    ghost from_gives = { λ failure stop. stop ≡ stop_of failure };

    fn from(failure: StreamFailure) -> Stop<'a> {
        match failure {
            StreamFailure::InputTooLong => Stop::Refused(Refusal::InputTooLong),
            StreamFailure::OutOfMemory => Stop::Refused(Refusal::OutOfMemory),
            StreamFailure::WriteFailed => Stop::WriteFailed,
        }
    }
}
