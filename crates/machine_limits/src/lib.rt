//! That a run of superstep code keeps to its limits: values of 64 bits, and messages of few words that can be sent.
#![tactic(auto)]

pub mod limit_laws;
