//! Cells of a declaration.

ghost use Rattle.std.specs.Prelude.{◌≡◌};
ghost use Rattle.pictures.specs.Flows.Cells as spec;

/// Cells that follow one another, as those of a declaration: from the first to the last, by number.
#[derive(Clone, Copy, Debug)]
pub struct CellSpan {
    pub first: u32,
    pub last: u32,
}

// Whether a cell is among those of some declarations.
fn is_among(only: &[CellSpan], cell: u32) -> bool
    ensures { result ≡ spec.is_among only.now cell }
{
    for span in only {
        if span.first <= cell && cell <= span.last {
            return true;
        }
    }
    false
}

/// Whether it is, where any are given.
pub(crate) fn is_chosen(only: &[CellSpan], cell: u32) -> bool
    ensures { result ≡ spec.is_chosen only.now cell }
{
    only.is_empty() || is_among(only, cell)
}
