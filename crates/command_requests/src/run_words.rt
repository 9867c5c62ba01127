//! How something is run.

use crate::opening::Opening;
use run_options::{Options, Reserve};

/// How a program is run by its definition.
#[derive(Clone, Copy, Debug)]
pub struct MeaningWords<'a> {
    /// What the cells hold before the first statement.
    pub opening: Opening<'a>,
    /// The most statements that are run.
    pub bound: u32,
    /// In how many seconds the run is to be over. Without a number it has the time that it takes.
    pub seconds: Option<u32>,
}

/// How code is run by workers: that of a program, or that of a listing.
#[derive(Clone, Copy, Debug)]
pub struct RunWords<'a> {
    /// What the cells hold before the first statement.
    pub opening: Opening<'a>,
    pub options: Options,
    /// For how much workers take all their memory before the first exchange. Without one they take it on the way.
    pub reserve: Option<Reserve>,
}
