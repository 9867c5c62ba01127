//! A writer that takes little at a time, and at some time no more.

ghost use Rattle.std.specs.Prelude.{◌≡◌, ◌<◌, Some, true};

use pram_syntax::{Out, OutFailed};
use std::alloc::Global;

/// A writer that takes at most so many bytes a call, and no more than it has room for.
#[derive(Drop)]
pub(crate) struct Narrow {
    pub(crate) bytes: Vec<u8>,
    width: usize,
    room: usize,
    failed: bool,
    // how often it failed, as far as a `u8` counts
    pub(crate) failures: u8,
    ghost wide: { 0 < width },
}

impl Out for Narrow {
    ghost state = { λ w. record { taken = Some w.bytes.items; failed = w.failed } };

    fn write(&mut self, bytes: &[u8]) -> Result<usize, OutFailed> {
        let count = bytes.len().min(self.width).min(self.room);
        if count == 0 && !bytes.is_empty() {
            return Err(self.failure());
        }
        match self.bytes.extend_from_slice(&bytes[..count]) {
            Ok(()) => {
                self.room -= count;
                Ok(count)
            }
            Err(_) => Err(self.failure()),
        }
    }
}

impl Narrow {
    /// It takes at most so many bytes a call, 1 at least, and so many in all.
    pub(crate) fn new(alloc: Global, width: usize, room: usize) -> Narrow
        requires { 0 < width }
    {
        Narrow {
            bytes: Vec::new(alloc),
            width,
            room,
            failed: false,
            failures: 0,
        }
    }

    // Notes that it fails.
    fn failure(&mut self) -> OutFailed
        ensures same { (self.new.bytes ≡ self.old.bytes) × (self.new.failed ≡ true) }
    {
        self.failed = true;
        self.failures = self.failures.saturating_add(1);
        OutFailed
    }
}
