//! Workers of a run at the seats of a barrier, and a run of verified code by workers in threads.
#![tactic(auto)]

mod crew;
mod deed;
mod gates;
mod gathering;
mod hands;
mod job;
mod lists;
mod part;
mod play;
mod report;
mod reserving;
mod room;
mod run;
pub mod seat_laws;
mod task;
mod threads;

pub use gates::{Gate, OpenGate};
pub use gathering::gather;
pub use hands::{ColumnHand, RowHand};
pub use play::work;
pub use run::{run_keeping, run_on_terms, run_reserved, run_workers};
