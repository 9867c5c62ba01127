//! What is told of entries, and how.

use crate::Focus;
use crate::manner::Manner;
use pram_trees::Tree;

/// What is told of a statement beside its line, its processors and the cells that it changed, or its fault.
#[derive(Clone, Copy)]
pub struct Detail<'a> {
    /// The uniform variables and the locals that it changed, and what it printed; at a fault the locals of the processors that it is of.
    /// They have their names in this tree of the program.
    pub locals: Option<&'a Tree>,
    /// The column at which it begins in this text of the program.
    pub columns: Option<&'a [u8]>,
}

/// How entries are written, what is told of each, and what of each is looked at.
#[derive(Clone, Copy)]
pub struct Telling<'a> {
    pub manner: Manner<'a>,
    pub detail: Detail<'a>,
    pub focus: Focus<'a>,
}
