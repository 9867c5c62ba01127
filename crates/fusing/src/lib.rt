//! Superstep code without the sends that send nothing.
#![tactic(auto)]

mod empty;
mod fuse_sends;
pub mod fusing_laws;
mod renumber;

pub use fuse_sends::fuse;
