//! What a call finds of a program at several sizes: a row for each, and how time and work grow.
#![tactic(auto)]

mod sweeping;

pub use sweeping::find_sweep;
