//! From an accepted program to its superstep code, as the compiler writes it.
#![tactic(auto)]

mod finish;
mod inside;
mod outside;
mod program;

pub use program::lower;
