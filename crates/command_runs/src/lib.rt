//! What a call finds of a program's code and of its runs, by the definition and by workers, and of a listing's.
#![tactic(auto)]

pub mod cost_laws;
mod exploring;
mod finding_code;
mod finding_meaning;
mod finding_rules;
mod finding_run;
mod finding_steps;
mod given;
mod running;
mod specifying;
mod surveying;
mod timed;
mod tracing;
mod unlike;

pub use exploring::find_scope;
pub use finding_code::{find_code, find_plain_c};
pub use finding_meaning::{find_cost, find_meaning};
pub use finding_rules::find_rules;
pub use finding_run::{find_code_run, find_run, find_trace};
pub use finding_steps::find_steps;
pub use surveying::find_overall;
