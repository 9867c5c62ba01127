//! What was spent on exchanges so far.

/// What a run has spent on its exchanges so far: how many, and whether a write is held back.
#[derive(Clone, Copy)]
pub struct Exchanges {
    pub count: u128,
    pub held: bool,
}
