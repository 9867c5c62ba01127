//! Whether a test comes out one way.

ghost use Rattle.std.specs.Prelude.{ℤ};
ghost use Rattle.intervals.specs.Intervals.{IsIn};
ghost use Rattle.abstract_runs.specs.Decided.{ComesOut};

use intervals::Interval;

/// How a test comes out, whatever number of the interval it gives.
#[derive(Clone, Copy, Debug, PartialEq, Eq)]
pub enum Decided {
    Yes,
    No,
    /// It may come out both ways.
    Open,
}

/// How a test comes out that gives a number of this interval.
pub fn decide(value: Interval) -> Decided
    // Each number of the interval comes out so.
    ensures { (z : ℤ) → IsIn z value → ComesOut result z }
{
    if !value.has(0) {
        return Decided::Yes;
    }
    if value.is_point() {
        return Decided::No;
    }
    Decided::Open
}
