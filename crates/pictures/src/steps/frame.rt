//! What a picture is drawn by.

ghost use Rattle.std.specs.Prelude.{◌≤◌, length};

use pram_trees::Layout;

/// Which part of a run is drawn: how many statements stand before it, and how many the run has.
#[derive(Clone, Copy)]
pub(crate) struct Part {
    pub(crate) skipped: usize,
    pub(crate) whole: usize,
}

/// The names of shared memory, the program's text, the indices that have a row, and how many letters stand above a column at most, and
/// which part of the run is drawn.
#[derive(Drop)]
pub(crate) struct Frame<'a> {
    pub(crate) layout: &'a Layout,
    pub(crate) text: &'a [u8],
    pub(crate) rows: &'a [i64],
    pub(crate) letters: usize,
    pub(crate) part: Part,
    ghost few: { length rows.now ≤ 64 },
    ghost short: { letters ≤ 36 },
}

/// Where a column begins, where its rows begin, and the number of its statement.
#[derive(Clone, Copy)]
pub(crate) struct Column {
    pub(crate) x: usize,
    pub(crate) y: usize,
    pub(crate) number: u128,
    ghost right: { x ≤ 2000 },
    ghost some: { 42 ≤ y },
    ghost down: { y ≤ 20000 },
}
