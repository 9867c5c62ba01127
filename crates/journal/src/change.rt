//! Changes of values.

/// A cell, a uniform variable or a local whose value differs behind a statement, with its value before and
/// after.
#[derive(Clone, Copy)]
pub struct Change {
    /// The number of the cell, or of the variable or local in the order of declarations.
    pub cell: usize,
    pub before: i64,
    pub after: i64,
}
