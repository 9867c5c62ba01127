//! Superstep code: its instructions, and code within its limits.
#![tactic(auto)]

mod code;
mod instr;

pub use code::Code;
pub use instr::{Arithmetic, Instr, Side, Truth};
