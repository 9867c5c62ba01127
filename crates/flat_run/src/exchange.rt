//! An exchange of a run.

ghost use Rattle.std.specs.Prelude.{◌≡◌};
ghost use Rattle.flat_machine.specs.Exchanges as spec;
ghost use Rattle.flat_run.specs.Exchanged.{exchange_is};

use superstep_machine::Purpose;

/// An exchange: what it is for, and whether a read or a write is held there.
#[derive(Clone, Copy, Debug, Drop, PartialEq, Eq)]
pub struct Exchange {
    pub purpose: Purpose,
    pub held: bool,
}

impl Exchange {
    /// Whether it is a send that sends nothing.
    pub fn is_empty(&self) -> bool
        ensures { result ≡ spec.is_empty (exchange_is self.now) }
    {
        matches!(self.purpose, Purpose::Send) && !self.held
    }
}
