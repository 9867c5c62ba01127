//! The canonical spelling of a program's tree.
#![tactic(auto)]

mod print;
mod printer;
pub mod printing_laws;
mod spell;

pub use print::print_tree;
pub use spell::{binary_text, mark_text, opening_text, prefix_text};
