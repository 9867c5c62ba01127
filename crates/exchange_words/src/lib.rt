//! How many words the workers of a run send: at most as many as its accesses take, counted on one memory.
#![tactic(auto)]

pub mod word_laws;
