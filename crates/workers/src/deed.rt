//! What a thread can be told to do.

use crate::gates::Gate;
use bsp_machine::CountedWorker;
use std::sync::Wait;
use turnstile::RowSeat;

/// What a worker can be told to do.
pub(crate) trait Deed: Send + Drop {
    ghost use Rattle.turnstile.specs.Seats.{RowState};
    ghost use Rattle.bsp_machine.specs.declared.counted.CountedWorker.{CountedWorker as Counted};

    /// What its seat and the worker are like when it is done.
    ghost done: { Self → RowState × Counted → Type 0 };

    /// Does it. The worker passes the gate before each exchange.
    fn work_off<R: Wait, G: Gate>(self, rt: &R, gate: &G) -> (RowSeat, CountedWorker)
        ensures { done self result };
}
