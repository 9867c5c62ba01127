//! For which inputs together a program is run.

use intervals::Interval;
use pram_model::Rule;

/// For which inputs together a program is run, and under which rule.
#[derive(Clone, Copy, Debug)]
pub struct AlwaysWords {
    /// How many values an input has. Without a number it has one for each shared cell.
    pub cells: Option<u32>,
    /// The interval of each value.
    pub of: Interval,
    /// Without one the rule is that of the program's text.
    pub rule: Option<Rule>,
}
