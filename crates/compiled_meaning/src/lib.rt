//! That compiled code means what its program means: statement by statement, outside pardo and inside, then whole programs.
#![tactic(auto)]

pub mod compiled_laws;
pub mod inside_laws;
pub mod outside_laws;
pub mod statement_laws;
