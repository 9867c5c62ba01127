//! On what terms code is run.

use crate::reserve::Reserve;

/// On what terms code is run: by so many workers, for so many statements at most, and with a reserve or without.
#[derive(Clone, Copy, Debug)]
pub struct Terms {
    pub workers: u32,
    pub bound: u32,
    pub reserve: Option<Reserve>,
}
