//! Superstep code in which no number is set that is only an operand.
#![tactic(auto)]

mod altering;
mod building;
mod certificate;
mod certified;
mod change;
mod check;
mod flowing;
mod numbers;
mod rows;
mod same;
mod tidying;
pub mod tidying_laws;

pub use tidying::tidy;
