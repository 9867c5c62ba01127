//! The first of several rows, cell by cell.

ghost use Rattle.std.specs.Prelude.{◌<◌, IfSome};

/// The row that came first to a cell, if it comes before this one; else this one is kept as the first.
pub(crate) fn first_before(first: &mut Vec<usize>, c: u32, row: usize) -> Option<usize>
    // It comes before this one.
    ensures { IfSome result (λ earlier. earlier < row) }
{
    let at = c as usize;
    if at >= first.len() {
        return None;
    }
    if first[at] < row {
        return Some(first[at]);
    }
    first[at] = row;
    None
}
