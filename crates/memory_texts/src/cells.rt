//! Which cells a heading speaks of.

ghost use Rattle.std.specs.Prelude.{◌≡◌, ◌≤◌, ◌<◌, ◌^◌, IfSome};
ghost use Rattle.pram_model.specs.Names.{same_text};
ghost use Rattle.pram_tokens.specs.Scanning.{longest};
ghost use Rattle.memory_texts.specs.Cells as spec;
ghost use Rattle.memory_texts.specs.Headings.{headed};

use crate::heading::{Heading, Interval};
use crate::memory_fault::MemoryFault;
use pram_model::Layout;

fn is_same(a: &[u8], b: &[u8]) -> bool
    ensures { result ≡ same_text a.now b.now }
{
    a == b
}

// The number of the first declaration of that name, and its bounds.
fn declaration(layout: &Layout, name: &[u8]) -> Option<(usize, Option<(i64, i64)>)>
    ensures { result ≡ spec.declaration 0 layout.now name.now }
{
    for i in 0..layout.len() {
        if is_same(layout.name(i), name) {
            return Some((i, layout.bounds(i)));
        }
    }
    None
}

// The least and the greatest subscript that a heading speaks of.
fn subscripts_of(bounds: Option<(i64, i64)>, interval: Option<Interval>) -> Option<(i64, i64)>
    ensures { result ≡ spec.subscripts_of bounds interval }
{
    match interval {
        None => match bounds {
            None => Some((0, 0)),
            Some(bounds) => Some(bounds),
        },
        Some(interval) => match bounds {
            None => None,
            Some(_) => Some((interval.low, interval.high)),
        },
    }
}

// The cells from one to another: the first of them, and how many they are.
fn between(first: Option<u32>, last: Option<u32>) -> Option<(u32, u32)>
    requires few { IfSome last (λ b. b < 2 ^ 20) }
    ensures value { result ≡ spec.between first last }
{
    match (first, last) {
        (Some(first), Some(last)) => {
            if first <= last {
                Some((first, last - first + 1))
            } else {
                None
            }
        }
        _ => None,
    }
}

// The cells of those subscripts.
fn cells_at(layout: &Layout, i: usize, subscripts: Option<(i64, i64)>) -> Option<(u32, u32)>
    ensures value { result ≡ spec.cells_at layout.now i subscripts }
{
    // No cell has a number as great as this one.
    let _cells = layout.cells();
    match subscripts {
        None => None,
        Some((low, high)) => between(layout.cell(i, low), layout.cell(i, high)),
    }
}

/// That something is unknown where so many bytes are left of a line that ends there.
fn unknown(end: usize, left: usize) -> MemoryFault
    requires fits { end ≤ longest }
    ensures { result ≡ spec.unknown end left }
{
    MemoryFault::Unknown(end.saturating_sub(left) as u32)
}

// How many bytes are left from the interval on, or from the name on where there is none.
fn left_of(heading: &Heading<'_>) -> usize
    ensures { result ≡ spec.left_of (headed heading.now) }
{
    match heading.interval {
        None => heading.left,
        Some(interval) => interval.left,
    }
}

/// The first cell that a heading speaks of, and how many cells that are. The offset is that of its line's end.
pub(crate) fn cells_of(
    layout: &Layout,
    end: usize,
    heading: &Heading<'_>,
) -> Result<(u32, u32), MemoryFault>
    requires fits { end ≤ longest }
    ensures value { result ≡ spec.cells_of layout.now end (headed heading.now) }
{
    match declaration(layout, heading.name) {
        None => Err(unknown(end, heading.left)),
        Some((i, bounds)) => match cells_at(layout, i, subscripts_of(bounds, heading.interval)) {
            None => Err(unknown(end, left_of(heading))),
            Some(cells) => Ok(cells),
        },
    }
}
