//! What is found of runs.

ghost use Rattle.std.specs.Prelude.{◌≡◌, ◌≤◌, ◌+◌};

use write_rules::Fault;

/// A fault, and the first input whose run has one of its kind at its line.
#[derive(Drop)]
pub struct FoundFault {
    pub fault: Fault,
    pub input: Vec<i64>,
}

/// The least and the greatest of some numbers.
#[derive(Clone, Copy)]
pub struct Span {
    pub least: u64,
    pub greatest: u64,
}

/// What is found of the runs of a program on some inputs: how many inputs there are, how many of them count, and on how many of these the
/// run ends, faults and goes on; on how many of those on which it ends the run fails; of each kind of fault at each line the first one, in
/// the order in which they are met; the first input on which the run goes on and the first on which it fails, if there are such; and the
/// time and the work of the runs that end, where any does.
#[derive(Drop)]
pub struct Findings {
    pub inputs: u64,
    pub counting: u64,
    pub ended: u64,
    pub faulted: u64,
    pub go_on: u64,
    pub failed: u64,
    pub faults: Vec<FoundFault>,
    pub goes_on_at: Option<Vec<i64>>,
    pub fails_at: Option<Vec<i64>>,
    pub time: Option<Span>,
    pub work: Option<Span>,
    ghost parts: { ended + (faulted + go_on) ≡ counting },
    ghost some: { counting ≤ inputs },
    ghost ends: { failed ≤ ended },
}
