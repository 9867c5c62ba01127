//! A call that is looked at by its clock alone.

use observing::Watch;

/// A watch that is told nothing, but whose clock is looked at: a run tells itself where its lines come on a terminal.
#[derive(Drop)]
pub struct Quiet<'w, V: Watch> {
    watch: &'w V,
}

impl<'w, V: Watch> Quiet<'w, V> {
    /// By the clock of this watch.
    pub fn new(watch: &'w V) -> Quiet<'w, V> {
        Quiet { watch }
    }
}

impl<'w, V: Watch> Watch for Quiet<'w, V> {
    fn look(&mut self, _done: u64, _all: u64, _next: &[i64]) {}

    fn ran(&mut self, _statements: u32) {}

    fn elapsed(&self) -> u64 {
        self.watch.elapsed()
    }

    fn close(&mut self) {}
}
