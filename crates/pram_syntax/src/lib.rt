//! The language, by its front door: texts, trees and inputs.
#![tactic(auto)]

pub use pram_model::{Layout, Range, Rule};
pub use pram_parser::parse;
pub use pram_printer::print_tree;
pub use pram_tokens::{Location, Name, Numeral, TextFault, read_input};
pub use pram_trees::{Declaration, Expr, Prefix, Stmt, Tree};
pub use text_out::{Buffer, Out, OutFailed, WriteFault};
