//! What is known of what a processor sees.

ghost use Rattle.std.specs.Prelude.{List, ℤ, pos, slice_index_or};
ghost use Rattle.intervals.specs.Intervals.{IsIn};
ghost use Rattle.all_inputs.specs.Overall.{Cover};

use intervals::Interval;
use pram_trees::Layout;

/// What is known of what one processor sees before a statement: an interval for each value.
#[derive(Clone, Copy)]
pub struct Outlook<'a> {
    pub layout: &'a Layout,
    pub uniforms: &'a Vec<Interval>,
    pub cells: &'a Vec<Interval>,
    pub index: i64,
    pub locals: &'a Vec<Interval>,
}

/// The interval at a place, that of 0 alone where there is none.
pub fn interval_at(items: &[Interval], place: usize) -> Interval
    // The value at that place lies in it, whatever values lie in the intervals.
    ensures { (zs : List ℤ) → Cover items.now zs → IsIn (slice_index_or zs place (pos 0)) result }
{
    match items.get(place) {
        Some(interval) => *interval,
        None => Interval::point(0),
    }
}
