//! What a line costs.

/// What a line of the program costs: how often it ran, one for each processor of each of those times
/// (work), and its shared reads and writes.
#[derive(Clone, Copy, Drop)]
pub struct LineCost {
    pub line: u32,
    pub times: u32,
    pub work: u64,
    pub reads: u128,
    pub writes: u64,
}
