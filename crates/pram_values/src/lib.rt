//! Values of 64 bits: what each operation gives, and the faults that a statement can have.
#![tactic(auto)]

mod arithmetic;
mod division;
mod kind;
mod place;
mod total;
mod truths;
pub mod value_laws;

pub use arithmetic::{add, multiply, negate, subtract};
pub use division::{divide, remainder};
pub use kind::Kind;
pub use place::Place;
pub use truths::{at_most, both, either, equal, is_same, is_true, less, negation, truth, unequal};
