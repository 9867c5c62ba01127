//! What is measured of a run.

ghost use Rattle.std.specs.Prelude.{◌≡◌};
ghost use Rattle.sweeps.specs.SweptTables as spec;

use crate::size_row::Counts;

/// A number whose growth is told.
#[derive(Clone, Copy, Debug, PartialEq, Eq)]
pub enum Measure {
    Time,
    Work,
}

impl Measure {
    /// The number of these counts.
    pub fn number(self, counts: &Counts) -> u64
        ensures { result ≡ spec.number self counts.now }
    {
        match self {
            Measure::Time => u64::from(counts.time),
            Measure::Work => counts.work,
        }
    }
}
