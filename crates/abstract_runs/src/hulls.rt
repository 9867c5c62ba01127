//! The interval of each declaration.

ghost use Rattle.std.specs.Prelude.{◌≡◌, ◌+◌, ◌^◌, ◌<◌, List, ℤ, drop, take, IfOk};
ghost use Rattle.std.specs.List.{AllByRecursion};
ghost use Rattle.intervals.specs.Intervals.{IsIn};
ghost use Rattle.all_inputs.specs.Overall.{Cover, Hold};

use crate::reach::{Reach, read_cells};
use intervals::Interval;
use pram_trees::Layout;
use std::alloc::{AllocError, Global};

// The least interval that holds those of so many cells from the first on; that of 0 alone where there are none.
fn hull(cells: &[Interval], first: u32, size: u32) -> Interval
    requires { first + size < 2 ^ 32 }
    ensures { (memory : List ℤ) → Cover cells.now memory → AllByRecursion (λ z. IsIn z result) (take size (drop first memory)) }
{
    if size == 0 {
        return Interval::point(0);
    }
    let last = first + (size - 1);
    read_cells(
        cells,
        Reach {
            least: first,
            most: last,
        },
    )
}

/// The least interval that holds those of all cells of a declaration, for each, in their order.
pub(crate) fn hulls(
    alloc: Global,
    layout: &Layout,
    cells: &[Interval],
) -> Result<Vec<Interval>, AllocError>
    // The values of a declaration's cells lie in its interval.
    ensures { IfOk result (λ found. (memory : List ℤ) → Cover cells.now memory → Hold layout.now found.items memory) }
{
    let mut found = Vec::with_capacity(alloc, layout.len())?;
    let mut first = 0;
    let _all = layout.cells();
    for entry in 0..layout.len() {
        let size = layout.size(entry);
        found.push(hull(cells, first, size))?;
        first += size;
    }
    Ok(found)
}
