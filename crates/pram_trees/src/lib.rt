//! The trees of PRAM programs, and the grammar in which they stand.
#![tactic(auto)]

mod level;
mod parse_error;
mod tree;

pub use level::Level;
pub use parse_error::ParseError;
pub use pram_model::{Layout, Range, Rule};
pub use pram_tokens::{
    Binary, LexError, Location, Mark, Name, Numeral, Opening, TextFault, Token, read_input,
};
pub use tree::{Declaration, Expr, Prefix, Stmt, Tree};
