//! Which inputs a program is run on: those of a small scope, or some that are drawn.

use crate::input_words::{DrawnWords, FewInputs, KindWords};
use pram_model::Rule;

/// The most inputs of a scope on which a program is run.
pub const MOST_INPUTS: u64 = 100_000_000;

/// The most cells that a program has, and so the most values of an input.
pub const MOST_CELLS: u32 = 1_048_576;

/// The most values of which all orders are tried: of ten there are 3,628,800.
pub const MOST_ORDERED: u32 = 10;

/// The inputs on which a program is run.
#[derive(Clone, Copy, Debug)]
pub enum ExploredInputs {
    /// All those of a scope.
    Scope {
        few: FewInputs,
        /// Whether those that are told are made smaller while the same goes wrong.
        shrink: bool,
    },
    /// Those that are drawn: for the cells of all declarations, where no number of them is given.
    Drawn(DrawnWords),
    /// Those of a kind that are drawn: for the cells of the first declaration, or of the first two where it is a graph.
    OfKind(KindWords),
}

/// On which inputs a program is run, under which rule, and by how many workers.
#[derive(Clone, Copy, Debug)]
pub struct ScopeWords {
    pub inputs: ExploredInputs,
    /// Without one the rule is that of the program's text.
    pub rule: Option<Rule>,
    /// Of which there have to be 1 to 32. Inputs that are drawn are run by one.
    pub workers: u32,
}
