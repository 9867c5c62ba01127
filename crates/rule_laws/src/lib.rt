//! The rules of concurrent access are ordered.
#![tactic(auto)]

pub mod laws;
