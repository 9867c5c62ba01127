//! What was counted so far.

ghost use Rattle.std.specs.Prelude.{◌≤◌, ◌*◌, ◌^◌};

/// What was counted so far: the statements that ran, one for each processor of each of them, the
/// most processors of one, their shared accesses, and the rounds in which they are scheduled.
#[derive(Clone, Copy)]
pub struct Tally {
    pub time: u32,
    pub work: u64,
    pub width: u32,
    pub reads: u128,
    pub writes: u64,
    pub rounds: u64,
    ghost work_fits: { work ≤ time * 2 ^ 32 },
    ghost reads_fit: { reads ≤ time * 2 ^ 96 },
    ghost writes_fit: { writes ≤ time * 2 ^ 32 },
    ghost rounds_fit: { rounds ≤ time * 2 ^ 32 },
}
