//! The uniform part, of which there is one copy.

ghost use Rattle.std.specs.Prelude.{◌≤ℤ◌, ◌+ℤ◌, ◌^◌, pos};

use crate::read::{Moment, Read};
use prepared_division::RecentDivisors;
use smallvec::SmallVec;

/// The uniform part. The range of processors begins at the index `low`; `asks` are the reads that
/// are held, and `awaited` those that were sent and have no answer yet: eight of each, which verified code has at most, stand in the value
/// itself; `put` is the moment of the put that is held; an item of the output has the count at which it was printed; `reserved` says that
/// its memory was taken in advance, so that the output doesn't grow past that; `divisors` are those of the divisions before. A register is 0
/// until it is set, and is set where it has a place.
#[derive(Drop)]
pub struct UniformState {
    pub count: u32,
    pub line: u32,
    pub registers: Vec<i64>,
    pub low: i64,
    pub width: u32,
    pub asks: SmallVec<Read, 8>,
    pub awaited: SmallVec<Read, 8>,
    pub put: Option<Moment>,
    pub output: Vec<(u32, i64)>,
    pub reserved: bool,
    pub(crate) divisors: RecentDivisors,
    ghost fits: { (low +ℤ pos width) ≤ℤ pos (2 ^ 63) },
}
