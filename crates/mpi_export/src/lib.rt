//! A plan as a program in C, over MPI or on one memory: a runtime for all plans, and in it the plan's words.
#![tactic(auto)]

mod alone;
mod alone_plan;
mod alone_printer;
mod alone_text;
mod exchange_text;
mod loops;
mod marks;
mod opening_text;
mod parts;
mod printer;
mod program;
pub mod program_laws;
mod row;
mod run_text;
mod state_text;

pub use alone::write_alone;
pub use alone_plan::AlonePlan;
pub use program::write_program;
