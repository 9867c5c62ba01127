//! What the workers of a run counted at its exchanges.
#![tactic(auto)]

mod count;
pub mod count_laws;
mod counts;
mod tally;

pub use count::Count;
pub use counts::Counts;
pub use superstep_machine::Purpose;
pub use tally::Tally;
