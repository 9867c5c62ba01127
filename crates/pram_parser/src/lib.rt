//! The parser: from a text, or its tokens, to its tree.
#![tactic(auto)]

mod front;
mod parse_decl;
mod parse_expr;
mod parse_for;
mod parse_stmt;
mod parser;
pub mod parsing_laws;
mod text;

pub use parser::parse_tokens;
pub use text::parse;
