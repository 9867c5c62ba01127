//! The trace of a run, as text and as a picture of its exchanges.
#![tactic(auto)]

mod bars;
mod columns;
mod cost;
mod exchange_line;
mod numbers;
mod picture;
pub mod picture_laws;
mod scale;
mod trace;
pub mod trace_laws;

pub use cost::{Rates, bsp_cost, write_bsp_cost};
pub use picture::write_picture;
pub use trace::write_trace;
