//! The laws of this crate.

pub use crate::print::printing_reads_back;
