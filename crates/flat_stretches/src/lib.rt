//! Runs of superstep code on one memory, cut into stretches between two statements: what a stretch does, place by place.
#![tactic(auto)]

pub mod stretch_laws;
