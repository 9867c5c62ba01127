//! What a worker passes before it goes on to an exchange.

use std::sync::Wait;

/// Holds a worker back for a while, as a test does that wants another to be first, or is told how far the run is.
pub trait Gate {
    /// Worker `worker` passes before its exchange of the number `phase`, counted from 1, behind so many statements.
    fn pass<R: Wait>(&self, rt: &R, worker: u32, phase: u64, statements: u32);
}

/// A gate that is always open.
#[derive(Clone, Copy, Drop)]
pub struct OpenGate;

impl Gate for OpenGate {
    fn pass<R: Wait>(&self, _rt: &R, _worker: u32, _phase: u64, _statements: u32) {}
}
