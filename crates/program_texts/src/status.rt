//! Exit statuses.

ghost use Rattle.std.specs.Prelude.{◌≡◌};
ghost use Rattle.program_texts.specs.Status.{code, status_of};

use write_rules::Outcome;

/// How a call of the program ended.
#[derive(Clone, Copy, Debug, Drop, PartialEq, Eq)]
pub enum Status {
    /// The program ended, or its text was accepted.
    Done,
    /// A statement of the program faulted.
    Faulted,
    /// The command line, a file, the program or its input was refused.
    Refused,
    /// The bound was met.
    GoesOn,
}

impl Status {
    /// The exit status of a run.
    pub fn of(outcome: &Outcome) -> Status
        ensures { result ≡ status_of outcome.now }
    {
        match outcome {
            Outcome::Ended { .. } => Status::Done,
            Outcome::Faulted { .. } => Status::Faulted,
            Outcome::GoesOn { .. } => Status::GoesOn,
        }
    }

    /// The number that the system sees.
    pub fn code(self) -> u8
        ensures { result ≡ code self }
    {
        match self {
            Status::Done => 0,
            Status::Faulted => 1,
            Status::Refused => 2,
            Status::GoesOn => 3,
        }
    }
}
