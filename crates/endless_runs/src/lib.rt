//! Runs that never end: a loop that comes back to a state that it had.
#![tactic(auto)]

mod cycle;
mod endless;
mod kept;
mod search;
mod stop;

pub use cycle::Cycle;
pub use endless::find_cycle;
