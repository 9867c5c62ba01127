//! Too many exchanges or words to be counted.

use thiserror::Error;

/// There are more exchanges or words, or more levels of reads, than are counted: no expression that has
/// room in memory, and no run of 2^32 statements, comes so far.
#[derive(Debug, Drop, Error)]
#[error("more exchanges or words than are counted")]
pub struct TooMany;
