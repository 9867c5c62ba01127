//! Runs of a program by its definition, during which somebody is told how far they are.
#![tactic(auto)]

mod observed;
mod watch;
mod watched;

pub use observed::observe_watched;
pub use watch::{Nobody, Watch};
