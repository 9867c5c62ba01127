//! Histories of workers that exchange messages: that they make one run of the machine.
#![tactic(auto)]

pub mod history_laws;
