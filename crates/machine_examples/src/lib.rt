//! What the definition of the machine gives for worked codes.
#![tactic(auto)]

pub mod example_laws;
mod machine_law;
mod worked_law;
