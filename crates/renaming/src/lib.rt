//! Superstep code whose registers are numbered from 0 on, so that none is there that no instruction names.
#![tactic(auto)]

mod named;
mod numbers;
mod packing;
pub mod packing_laws;
mod renamed;

pub use packing::pack;
