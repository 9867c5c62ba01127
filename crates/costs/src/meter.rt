//! What counts a run that it hears.

ghost use Rattle.std.specs.Prelude.{◌<◌};

use crate::ledger::Ledger;

/// What was counted so far of a run that is heard, and on how many processors it is scheduled; and how many of the reads
/// were made outside pardo.
#[derive(Drop)]
pub struct Meter {
    pub schedule: u32,
    pub ledger: Ledger,
    pub outer_reads: u128,
    ghost some: { 0 < schedule },
}
