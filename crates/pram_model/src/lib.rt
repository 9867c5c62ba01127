//! What a program and its code have in common: the rules of concurrent access, and the shared declarations with their cells.
#![tactic(auto)]

mod layout;
mod names;
mod rule;

pub use layout::{Layout, Range};
pub use names::{is_keyword, is_name};
pub use rule::Rule;
