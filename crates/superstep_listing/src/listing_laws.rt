//! The laws of this crate.

pub use crate::listing_write::writing_reads_back;
