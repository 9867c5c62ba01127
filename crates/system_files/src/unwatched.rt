//! A call that nobody looks at.

use observing::Watch;
use std::sync::Wait;
use workers::Gate;

/// Nobody is told of a call, nobody looks at a clock, and its workers go on at once.
#[derive(Clone, Copy, Drop)]
pub struct Unwatched;

impl Watch for Unwatched {
    fn look(&mut self, _done: u64, _all: u64, _next: &[i64]) {}

    fn ran(&mut self, _statements: u32) {}

    fn elapsed(&self) -> u64 {
        0
    }

    fn close(&mut self) {}
}

impl Gate for Unwatched {
    fn pass<R: Wait>(&self, _rt: &R, _worker: u32, _phase: u64, _statements: u32) {}
}
