//! The moments of a run are the run's.
#![tactic(auto)]

pub mod moment_laws;
