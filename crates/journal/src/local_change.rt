//! Changes of the values of locals.

use crate::change::Change;

/// A local of a processor whose value differs behind a statement.
#[derive(Clone, Copy)]
pub struct LocalChange {
    /// The processor's index.
    pub processor: i64,
    /// The number of the local among those of its pardo, in the order of declaration, and its value before and after.
    pub change: Change,
}
