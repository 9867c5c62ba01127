//! Sets of 64-bit numbers from a least to a greatest, and what the operations of the language come to on all of their
//! members.
#![tactic(auto)]

mod comparison;
mod found;
mod interval;
pub mod interval_laws;
mod narrowing;
mod operation;
mod products;
mod quotients;
mod remainders;
mod span;
mod sums;
mod tests;
mod widening;

pub use comparison::Comparison;
pub use found::Found;
pub use interval::Interval;
pub use narrowing::narrowed;
pub use operation::{comparison_of, operate, operate_before};
pub use widening::widened;
