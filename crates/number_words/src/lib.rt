//! The whole number that a word is.
#![tactic(auto)]

mod number;

pub use number::read_number;
