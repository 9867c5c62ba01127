//! Which entries of a run are written.

use pram_trees::{Layout, Tree};

/// The entries whose numbers, counted from 1, go from `first` to `last`, of a program with these cells, this tree and this text.
#[derive(Clone, Copy)]
pub(crate) struct Asked<'a> {
    pub layout: &'a Layout,
    pub tree: &'a Tree,
    pub source: &'a [u8],
    pub first: usize,
    pub last: usize,
}
