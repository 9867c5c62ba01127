//! Two runs that end.

ghost use Rattle.std.specs.Prelude.{◌≡◌, slice_get};
ghost use Rattle.comparing.specs.Ends as spec;

use crate::compared::{CommonRange, Compared};
use crate::difference::Difference;
use crate::unequal::first_unequal;

/// The first item at which two outputs differ.
pub(crate) fn output_difference(first: &[i64], second: &[i64]) -> Option<Difference>
    ensures { result ≡ slice_get (spec.output_differences first.now second.now) 0 }
{
    let count = first.len().max(second.len());
    let unequal = first_unequal(first, 0, second, 0, count)?;
    Some(Difference::Output {
        item: unequal.place + 1,
        first: unequal.first,
        second: unequal.second,
    })
}

// The first cell of a range that differs.
fn range_difference(range: CommonRange, first: &[i64], second: &[i64]) -> Option<Difference>
    ensures { result ≡ slice_get (spec.range_differences first.now second.now range) 0 }
{
    let first_start = range.first_start as usize;
    let second_start = range.second_start as usize;
    let count = range.length as usize;
    let unequal = first_unequal(first, first_start, second, second_start, count)?;
    Some(Difference::Cell {
        cell: u64::from(range.first_start) + unequal.place,
        first: unequal.first,
        second: unequal.second,
    })
}

/// The first cell of the ranges, in their order, at which two memories differ.
pub(crate) fn cell_difference(
    ranges: &[CommonRange],
    first: &[i64],
    second: &[i64],
) -> Option<Difference>
    ensures { result ≡ slice_get (spec.cell_differences ranges.now first.now second.now) 0 }
{
    for range in ranges {
        let found = range_difference(*range, first, second);
        if found.is_some() {
            return found;
        }
    }
    None
}
