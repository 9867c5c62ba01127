//! What the cells of a run hold before its first statement.

use drawn_kinds::DrawnKind;
use scopes::Drawing;

/// What the cells of a run hold before its first statement.
#[derive(Clone, Copy, Debug)]
pub enum Opening<'a> {
    /// Zeros.
    Zeros,
    /// In the first cells the values of the file of that name, and zeros in the others.
    Input(&'a str),
    /// What the file of that name says of cells by their names, and zeros in the others.
    Memory(&'a str),
    /// In all cells numbers that are drawn at random.
    Drawn(Drawing),
    /// In the cells of the first declaration, or of the first two where it is a graph, an input of this kind that the seed draws, and
    /// zeros in the others.
    OfKind(DrawnKind, u64),
}
