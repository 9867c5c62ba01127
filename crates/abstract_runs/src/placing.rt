//! The cells at the subscripts of an interval.

ghost use Rattle.std.specs.Prelude.{◌≡◌, ℤ, ◌≤ℤ◌, ◌||◌, int_lt};
ghost use Rattle.intervals.specs.Intervals.{IsIn};
ghost use Rattle.pram_model.specs.Layout.{cell_of, cell_at};
ghost use Rattle.abstract_runs.specs.Placed.{IsPlacedBy};
ghost use Rattle.abstract_runs.specs.Tried.{IsReadIn};

use crate::reach::Reach;
use intervals::Interval;
use pram_trees::{Layout, Range};

/// The cells at some subscripts of a declaration, and whether one of the subscripts is out of its bounds.
#[derive(Clone, Copy, Debug, PartialEq, Eq)]
pub struct Place {
    pub reach: Option<Reach>,
    pub may_be_outside: bool,
}

// The cells from one subscript within the bounds to another, if that isn't before it.
fn reach_of(range: Range, least: i64, most: i64) -> Option<Reach>
    requires low { range.low ≤ℤ least }
    requires high { most ≤ℤ range.high }
    ensures { (z : ℤ) → least ≤ℤ z → z ≤ℤ most → IsReadIn result (cell_at range.first range.low range.high z) }
{
    if most < least {
        return None;
    }
    Some(Reach {
        least: range.first + least.abs_diff(range.low) as u32,
        most: range.first + most.abs_diff(range.low) as u32,
    })
}

// Whether one of the subscripts is out of the bounds.
fn is_outside(range: Range, subscript: Interval) -> bool
    ensures { result ≡ (int_lt subscript.least range.low || int_lt range.high subscript.greatest) }
{
    subscript.least() < range.low || range.high < subscript.greatest()
}

/// Where the subscripts of an interval lead.
pub fn cells_at(layout: &Layout, entry: usize, subscript: Interval) -> Place
    // Each of these subscripts leads to a cell that is reached, or to none where that may be.
    ensures { (z : ℤ) → IsIn z subscript → IsPlacedBy result (cell_of layout.now entry z) }
{
    if layout.len() <= entry {
        return Place {
            reach: None,
            may_be_outside: true,
        };
    }
    let range = layout.range(entry);
    let least = subscript.least().max(range.low);
    let most = subscript.greatest().min(range.high);
    Place {
        reach: reach_of(range, least, most),
        may_be_outside: is_outside(range, subscript),
    }
}
