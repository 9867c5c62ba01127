//! The flat machine: superstep code on one memory, and that the workers of every map are it.
#![tactic(auto)]

mod control_law;
pub mod flat_laws;
mod flatness_law;
mod verdict_law;
