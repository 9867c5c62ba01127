//! Statements whose processors go on after a fault, as code does, and that the least fault is that of the meaning.
#![tactic(auto)]

pub mod evaluation_laws;
