//! What a call finds of two programs on the same inputs: those of a scope, of files, or drawn.
#![tactic(auto)]

mod choosing;
mod grading;
mod limiting;
mod pair_inputs;
mod pairing;
mod trying;

pub use grading::find_grade;
pub use pairing::find_pair;
