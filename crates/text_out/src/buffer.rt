//! A writer in memory.
ghost use Rattle.std.specs.Prelude.{◌≡◌, [], Some, false};
ghost use Rattle.text_out.specs.Out.{OutState};

use crate::writer::{Out, OutFailed};
use std::alloc::Global;

/// A writer in memory. Its one failure is that memory is refused, and then it keeps what it has.
#[derive(Drop)]
pub struct Buffer {
    bytes: Vec<u8>,
    failed: bool,
}

impl Buffer {
    /// No bytes yet.
    pub fn new(alloc: Global) -> Buffer
        ensures { ⟦<Buffer as Out>⟧.state result ≡ record { taken = Some []; failed = false } }
    {
        Buffer {
            bytes: Vec::new(alloc),
            failed: false,
        }
    }

    /// The bytes taken so far.
    pub fn bytes(&self) -> &[u8]
        ensures { (⟦<Buffer as Out>⟧.state self.now).taken ≡ Some result.now }
    {
        self.bytes.as_slice()
    }

    /// Whether memory was refused.
    pub fn failed(&self) -> bool
        ensures { result ≡ (⟦<Buffer as Out>⟧.state self.now).failed }
    {
        self.failed
    }
}

impl Out for Buffer {
    ghost state = { λ b. record { taken = Some b.bytes.items; failed = b.failed } };

    fn write(&mut self, bytes: &[u8]) -> Result<usize, OutFailed> {
        match self.bytes.extend_from_slice(bytes) {
            Ok(()) => Ok(bytes.len()),
            Err(_) => {
                self.failed = true;
                Err(OutFailed)
            }
        }
    }
}
