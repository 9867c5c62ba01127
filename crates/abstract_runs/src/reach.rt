//! The cells that may be read or written at a position.

ghost use Rattle.std.specs.Prelude.{ℕ, List, ℤ, pos, slice_index_or};
ghost use Rattle.intervals.specs.Intervals.{IsIn};
ghost use Rattle.all_inputs.specs.Overall.{Cover};
ghost use Rattle.abstract_runs.specs.Covers.{IsReached};

use crate::outlook::interval_at;
use intervals::Interval;

/// The cells with numbers from `least` to `most`.
#[derive(Clone, Copy, Debug, PartialEq, Eq)]
pub struct Reach {
    pub least: u32,
    pub most: u32,
}

/// The least interval that holds those of all cells of a reach.
pub fn read_cells(cells: &[Interval], reach: Reach) -> Interval
    // The value of each of these cells lies in it.
    ensures { (zs : List ℤ) (c : ℕ) → Cover cells.now zs → IsReached c reach → IsIn (slice_index_or zs c (pos 0)) result }
{
    let mut found = interval_at(cells, reach.least as usize);
    for c in reach.least as usize..reach.most as usize + 1 {
        found = found.join(interval_at(cells, c));
    }
    found
}
