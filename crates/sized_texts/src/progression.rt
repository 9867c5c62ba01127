//! The sizes of a range.

ghost use Rattle.std.specs.Prelude.{◌≡◌, IfOk};
ghost use Rattle.sized_texts.specs.SizeRanges as ranges;
ghost use Rattle.sized_texts.specs.Sweeps as spec;

use crate::size_range::{Growth, Range};
use std::alloc::{AllocError, Global};

/// The greatest number of sizes.
pub(crate) const MOST: usize = 1000;

// The size behind another one.
fn next(growth: Growth, size: u64) -> u128
    ensures { result ≡ ranges.next growth size }
{
    match growth {
        Growth::Times(factor) => u128::from(size) * u128::from(factor),
        Growth::Plus(step) => u128::from(size) + u128::from(step),
    }
}

/// The sizes of a range, if they are at most 1,000.
pub(crate) fn progression(alloc: Global, range: Range) -> Result<Option<Vec<u64>>, AllocError>
    ensures { IfOk result (spec.IsOf (ranges.IsProgression range)) }
{
    let mut sizes = Vec::new(alloc);
    let mut at = u128::from(range.first);
    while at <= u128::from(range.last) {
        if sizes.len() == MOST {
            return Ok(None);
        }
        let size = at as u64;
        sizes.push(size)?;
        at = next(range.growth, size);
    }
    Ok(Some(sizes))
}
