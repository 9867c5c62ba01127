//! Which entries of a run are written, and how.

use crate::Telling;
use pram_trees::Layout;

/// The entries whose numbers, counted from 1, go from `first` to `last`, of a program with these cells, as this telling says.
#[derive(Clone, Copy)]
pub(crate) struct Asked<'a> {
    pub layout: &'a Layout,
    pub telling: &'a Telling<'a>,
    pub first: usize,
    pub last: usize,
}
