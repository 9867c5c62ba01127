//! Which cells have a row.

ghost use Rattle.std.specs.Prelude.{◌≡◌, Some, map, take};
ghost use Rattle.pictures.specs.Flows.Cells as spec;
ghost use Rattle.pictures.specs.Flows.Drawing.{column_is, entries_of};

use crate::flows::cells::{fault_cell, least_from};
use crate::flows::column::Column;
use crate::flows::spans::CellSpan;
use arrayvec::ArrayVec;

/// No more cells are drawn.
const MOST_ROWS: usize = 64;

/// One more than are drawn, so that it is known whether more are touched.
const MOST_FOUND: usize = 65;

// The first cells that are touched, in ascending order, and one more than are drawn.
#[tactic(auto, using(crate::proofs::OfFlows::RowLists::rows_found))]
fn first_rows(only: &[CellSpan], columns: &[Column]) -> ArrayVec<u32, MOST_FOUND>
    ensures { result.items ≡ spec.first_rows only.now (entries_of (map column_is columns.now)) }
{
    let mut found = ArrayVec::new();
    let mut start = 0u64;
    'rows: while found.len() < MOST_FOUND {
        match least_from(only, start, columns) {
            None => return found,
            Some(cell) => {
                found.push(cell);
                start = u64::from(cell) + 1;
            }
        }
    }
    found
}

// The cell of a fault has the last row that is drawn, if none of the first is its own.
fn put_fault(found: &mut ArrayVec<u32, MOST_FOUND>, cell: u32)
    ensures { found.new.items ≡ spec.with_fault (Some cell) found.old.items }
{
    if found.len() > MOST_ROWS && found[MOST_ROWS - 1] < cell {
        found[MOST_ROWS - 1] = cell;
    }
}

/// The cells that are drawn, in ascending order, and one more where there are more.
pub(crate) fn rows_and_next(only: &[CellSpan], columns: &[Column]) -> ArrayVec<u32, MOST_FOUND>
    ensures { result.items ≡ spec.rows_and_next only.now (entries_of (map column_is columns.now)) }
{
    let mut found = first_rows(only, columns);
    if let Some(cell) = fault_cell(only, columns) {
        put_fault(&mut found, cell);
    }
    found
}

/// Those that are drawn.
pub(crate) fn drawn_rows(found: &[u32]) -> &[u32]
    ensures { result.now ≡ take 64 found.now }
{
    if found.len() > MOST_ROWS {
        found.split_at(MOST_ROWS).0
    } else {
        found
    }
}
