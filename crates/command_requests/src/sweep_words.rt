//! At which sizes a program is run, and how that is told.

ghost use Rattle.std.specs.Prelude.{◌<◌};
ghost use Rattle.std.specs.Option.{ForSome};

use crate::opening::Opening;

/// In which form costs at several sizes are told.
#[derive(Clone, Copy, Debug, Drop, PartialEq, Eq)]
pub enum SweepForm {
    /// In words.
    Words,
    /// As a table of values separated by commas.
    Table,
    /// Drawn, as SVG.
    Picture,
}

/// The sizes at which a program is run, how it is run at each, and how that is told.
#[derive(Clone, Copy, Debug)]
pub struct SweepWords<'a> {
    /// The word, as `n=4,8,16` or `n=4..64*2`, by which the sizes are given.
    pub word: &'a str,
    /// What the cells hold before the first statement. The name of an input's file may have places that the sizes fill.
    pub opening: Opening<'a>,
    /// The most statements that are run at a size.
    pub bound: u32,
    /// The number of workers for which the most words are told that they send. Without one no words are told.
    pub workers: Option<u32>,
    pub form: SweepForm,
    ghost sent: { ForSome workers (λ p. 0 < p) },
}
