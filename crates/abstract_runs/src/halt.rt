//! Why one run for all inputs comes to no end.

ghost use Rattle.std.specs.Prelude.{◌≡◌};
ghost use Rattle.abstract_runs.specs.declared.halt.Halt.TheVariants.{OutOfMemory};

use all_inputs::Undecided;
use std::alloc::AllocError;

/// Why one run for all inputs comes to no end.
#[derive(Clone, Copy, Debug, PartialEq, Eq)]
pub enum Halt {
    /// Memory was refused.
    OutOfMemory,
    /// Too little is known at a statement to go on.
    Undecided(Undecided),
}

impl From<AllocError> for Halt {
    ghost from_gives = { λ _ halt. halt ≡ OutOfMemory };

    fn from(_: AllocError) -> Halt {
        Halt::OutOfMemory
    }
}
