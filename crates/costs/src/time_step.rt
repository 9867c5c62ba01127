//! Statements of a run.

/// A statement that ran: its line, how many processors executed it, and how many shared reads and
/// writes they made.
#[derive(Clone, Copy)]
pub struct TimeStep {
    pub line: u32,
    pub processors: u32,
    pub reads: u128,
    pub writes: u32,
}
