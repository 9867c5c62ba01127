//! How intervals grow to hold others.

ghost use Rattle.intervals.specs.Intervals.{IsWithin};

use intervals::{Interval, widened};

// How an interval grows to hold another: to the least that holds both, to marks, or to all numbers if it isn't the same.
#[derive(Clone, Copy)]
pub(crate) enum Growth<'a> {
    Least,
    ToMarks(&'a [i64]),
    ToAll,
}

// All numbers, if the two are not the same.
fn opened(old: Interval, new: Interval) -> Interval
    ensures old { IsWithin old result }
    ensures new { IsWithin new result }
{
    let joined = old.join(new);
    if old == new {
        joined
    } else {
        joined.join(Interval::all())
    }
}

impl<'a> Growth<'a> {
    // The interval, grown to hold another.
    pub(crate) fn grown(self, old: Interval, new: Interval) -> Interval
        ensures old { IsWithin old result }
        ensures new { IsWithin new result }
    {
        match self {
            Growth::Least => old.join(new),
            Growth::ToMarks(marks) => widened(old, new, marks),
            Growth::ToAll => opened(old, new),
        }
    }
}
