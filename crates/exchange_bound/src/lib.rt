//! How many exchanges a program's run takes, at most, as a definition.
#![tactic(auto)]

pub mod bound_laws;
