//! What is found of two programs on one input.

ghost use Rattle.std.specs.Prelude.{◌≡◌};
ghost use Rattle.comparing.specs.Scores as spec;

use crate::difference::{Difference, Ending};

/// What is found of two programs on an input: what differs first, and how the second came out, with its time and its work.
#[derive(Clone, Copy)]
pub struct Trial {
    pub difference: Option<Difference>,
    pub ending: Ending,
    pub time: u64,
    pub work: u64,
}

impl Trial {
    /// Nothing differs, and the second program ends.
    pub(crate) fn is_correct(&self) -> bool
        ensures { result ≡ spec.is_correct self.now }
    {
        match (self.difference, self.ending) {
            (None, Ending::Ended) => true,
            _ => false,
        }
    }

    /// The second program faults.
    pub(crate) fn is_faulted(&self) -> bool
        ensures { result ≡ spec.is_faulted self.now }
    {
        match self.ending {
            Ending::Faulted(_) => true,
            Ending::Ended | Ending::GoesOn => false,
        }
    }

    /// It goes on.
    pub(crate) fn is_going_on(&self) -> bool
        ensures { result ≡ spec.is_going_on self.now }
    {
        match self.ending {
            Ending::GoesOn => true,
            Ending::Ended | Ending::Faulted(_) => false,
        }
    }

    /// It comes to the same, and takes more than a limit.
    pub(crate) fn is_above(&self) -> bool
        ensures { result ≡ spec.is_above self.now }
    {
        match self.difference {
            Some(Difference::Time { .. } | Difference::Work { .. }) => true,
            _ => false,
        }
    }
}
