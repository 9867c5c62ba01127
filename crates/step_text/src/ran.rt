//! Statements that ran.

use journal::{Change, LocalChange};
use pram_trees::Location;

/// Where a statement stands that ran, how many processors executed it, and what it changed and printed.
#[derive(Clone, Copy)]
pub(crate) struct Ran<'a> {
    pub location: Location,
    pub processors: usize,
    pub cells: &'a [Change],
    pub variables: &'a [Change],
    pub locals: &'a [LocalChange],
    pub printed: &'a [i64],
}
