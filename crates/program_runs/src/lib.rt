//! From the text of a program to the outcome of its run: compiled, and run by workers in threads that exchange messages at a barrier.
#![tactic(auto)]

pub mod code_laws;
pub mod communication_law;
mod compiler;
mod from_text;
pub mod headline;
mod on_map;

pub use compiler::{compile, compile_program};
pub use from_text::{Report, outcome_of_program, run_program, run_text, run_text_reserved};
pub use on_map::{outcome_of_code, run_code};
