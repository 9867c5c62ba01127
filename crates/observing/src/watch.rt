//! Who is told how far a call is.

/// Is told how far a call of many runs is, and how far a long run; and says for how long the call has been going.
pub trait Watch {
    /// So many of all inputs have been run, and the run on this one is next.
    fn look(&mut self, done: u64, all: u64, next: &[i64]);

    /// So many statements of a run have begun.
    fn ran(&mut self, statements: u32);

    /// How many milliseconds the call has been going; 0 where nobody looks at a clock.
    fn elapsed(&self) -> u64;

    /// No run is made any more.
    fn close(&mut self);
}

/// Nobody is told, and nobody looks at a clock.
#[derive(Drop)]
pub struct Nobody;

impl Watch for Nobody {
    fn look(&mut self, _done: u64, _all: u64, _next: &[i64]) {}

    fn ran(&mut self, _statements: u32) {}

    fn elapsed(&self) -> u64 {
        0
    }

    fn close(&mut self) {}
}
