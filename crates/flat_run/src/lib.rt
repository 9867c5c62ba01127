//! The flat machine as a plain program: superstep code run on one memory.
#![tactic(auto)]

mod conflict;
mod exchange;
mod followed;
mod instruct;
mod lined;
mod machine;
mod processor;
mod processor_fault;
mod program;
mod reply;
mod run;
mod send;
mod step;
mod verdict;
mod vote;

pub use exchange::Exchange;
pub use followed::flat_exchanges;
pub use lined::flat_lines;
pub use program::flat_run;
pub use superstep_machine::Purpose;
