//! Writers of bytes: what takes a text, and a buffer in memory.
#![tactic(auto)]

mod buffer;
mod writer;

pub use buffer::Buffer;
pub use writer::{Out, OutFailed, WriteFault};
