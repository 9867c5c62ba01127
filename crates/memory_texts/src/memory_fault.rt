//! What is wrong with a memory text.

ghost use Rattle.std.specs.Prelude.{◌≡◌};
ghost use Rattle.memory_texts.specs.declared.memory_fault.MemoryFault.TheVariants.{OutOfMemory};

use pram_tokens::TextFault;
use std::alloc::{AllocError, AllocFailed};

/// What is wrong with a memory text. An offset is in bytes, from the text's first byte on.
#[derive(Clone, Copy, Debug, PartialEq, Eq)]
pub enum MemoryFault {
    /// E1, E2 and E3: a byte of 128 or more, a text that is too long, and the first place at which a line has no form that a line can have.
    Text(TextFault),
    /// E6: the name there is that of no declaration, or the subscripts from there on are no interval of its array's.
    Unknown(u32),
    /// E11: a line has more values than cells for them.
    TooMany { values: usize, cells: u32 },
    /// E16: memory was refused.
    OutOfMemory,
}

impl From<AllocError> for MemoryFault {
    ghost from_gives = { λ _ e. e ≡ OutOfMemory };

    fn from(_e: AllocError) -> MemoryFault {
        MemoryFault::OutOfMemory
    }
}

impl<T: Drop> From<AllocFailed<T>> for MemoryFault {
    ghost from_gives = { λ _ e. e ≡ OutOfMemory };

    fn from(_e: AllocFailed<T>) -> MemoryFault {
        MemoryFault::OutOfMemory
    }
}
