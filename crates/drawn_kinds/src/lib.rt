//! Inputs of a kind, drawn by a seed: lists, rings, trees, graphs, sorted numbers and permutations.
#![tactic(auto)]

mod bounds;
mod ends;
mod inputs;
mod kind;
pub mod kind_laws;
mod nodes;
mod orders;
mod parents;
mod picks;
mod places;
mod words;

pub use bounds::{Bounds, Vertices};
pub use inputs::draw_kind;
pub use kind::{DrawnKind, read_kind};
