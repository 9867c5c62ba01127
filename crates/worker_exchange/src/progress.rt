//! Whether a worker's run goes on.

ghost use Rattle.std.specs.Prelude.{◌≡◌};
ghost use Rattle.superstep_machine.specs.Run as machine;
ghost use Rattle.worker_exchange.specs.Shown.{way_is, is_stopped as spec_is_stopped};

use crate::local::Local;
use crate::way::Way;

/// Whether a worker's run goes on behind an exchange.
#[derive(Clone, Copy, Debug, Drop, PartialEq, Eq)]
pub enum Progress {
    GoOn,
    Over,
}

/// Whether a worker's run is over: it has come to an end, or it has stopped.
pub fn is_over(local: &Local) -> bool
    ensures { result ≡ machine.is_over (way_is local.now.way) }
{
    match local.way {
        Way::On => false,
        Way::Ending { ended: _ } => false,
        Way::Past { key: _, ended: _ } => true,
        Way::Stopped { mark: _ } => true,
    }
}

/// Whether a worker's run was stopped by a mark.
pub fn is_stopped(way: Way) -> bool
    ensures { result ≡ spec_is_stopped way }
{
    match way {
        Way::Stopped { mark: _ } => true,
        _ => false,
    }
}
