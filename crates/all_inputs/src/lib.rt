//! What is told of a program's runs on all inputs of a scope together.
#![tactic(auto)]

mod certainty;
mod declared_text;
mod end_text;
mod ending;
mod faults;
mod faults_text;
mod interval_text;
mod line_faults;
mod overall;
mod overall_text;
mod reason;
mod reason_text;
mod scope;
mod told;
mod undecided;

pub use certainty::only_fault;
pub use ending::Ending;
pub use faults::Faults;
pub use line_faults::LineFaults;
pub use overall::Overall;
pub use overall_text::{write_overall, write_undecided};
pub use reason::Reason;
pub use scope::Scope;
pub use told::Told;
pub use undecided::Undecided;
