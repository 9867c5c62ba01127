//! Which superstep code a program is compiled to, as a definition.
#![tactic(auto)]

pub mod form_laws;
