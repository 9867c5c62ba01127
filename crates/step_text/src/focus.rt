//! What of a run is looked at.

use memory_texts::Choice;
use pram_trees::{Layout, Tree};

/// What of a run's statements is looked at.
#[derive(Clone, Copy)]
pub struct Focus<'a> {
    /// All, or the cells, the uniform variables and the locals alone that bear one of some names.
    pub names: Choice<'a>,
    /// The cells of the program.
    pub layout: &'a Layout,
    /// The program's tree, in which variables and locals have their names.
    pub tree: &'a Tree,
    /// Whether the locals at a fault are looked at too, where names are given.
    pub at_faults: bool,
}
