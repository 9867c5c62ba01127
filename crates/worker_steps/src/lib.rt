//! A worker between two exchanges: what each instruction does to it, and how it goes on up to the next exchange.
#![tactic(auto)]

mod advance;
mod holding;
mod instruct;
mod masking;
mod noting;
mod range;
mod reads;
mod registers;
mod step;
mod stretch_end;
mod worker;
mod writes;

pub use stretch_end::StretchEnd;
pub use worker::WorkerState;
