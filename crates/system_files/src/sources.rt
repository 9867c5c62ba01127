//! Where the program finds its files.

ghost use Rattle.std.specs.Prelude.{◌≡◌, ℕ, List, Option, Some, None, IfOk, OnOk, Err};
ghost use Rattle.system_files.specs.Files.{IsReadFrom, IsSame, IsSameBut};
ghost use Rattle.system_files.specs.declared.sources.SourceFault.TheVariants.{Directory, Missing, Unreadable};

use std::alloc::{AllocError, Global};
use thiserror::Error;

/// Why the bytes of a file are not there.
#[derive(Clone, Copy, Debug, Drop, PartialEq, Eq, Error)]
pub enum SourceFault {
    /// P2: there is no such file.
    #[error("P2")]
    Missing,
    /// P2: it is a directory.
    #[error("P2")]
    Directory,
    /// P2: it can't be read, for another reason.
    #[error("P2")]
    Unreadable,
    /// E16: memory was refused.
    #[error("E16 OutOfMemory")]
    OutOfMemory,
}

/// Why a file isn't written.
#[derive(Clone, Copy, Debug, Drop, PartialEq, Eq, Error)]
pub enum WriteRefused {
    /// P2: it can't be written.
    #[error("P2")]
    Unwritable,
    /// E16: memory was refused.
    #[error("E16 OutOfMemory")]
    OutOfMemory,
}

/// What stands beside a file.
#[derive(Drop)]
pub struct Beside {
    /// The name of the file in its folder.
    pub name: Vec<u8>,
    /// The names of what stands in that folder, in order, as far as they can be read.
    pub others: Vec<Vec<u8>>,
}

/// Files by their names.
pub trait Sources {
    /// What a name may stand for: a file with these bytes, or none that can be read.
    ghost holds: { Self → List ℕ → Option (List ℕ) → Type 0 };

    /// The bytes of a file, or a beginning of it where it has more than `most`, which has more than `most` too.
    fn read(&mut self, alloc: Global, name: &str, most: u32) -> Result<Vec<u8>, SourceFault>
        // The bytes are all that the file of that name holds where they are no more than `most`, and else a beginning
        // of it.
        ensures bytes { IfOk result (λ bytes. IsReadFrom (holds self.old name.now) most bytes.items) }
        // A file is told as missing only where there may be none that can be read.
        ensures missing { result ≡ Err Missing → holds self.old name.now None }
        // A file is told as a directory only where there may be none that can be read.
        ensures directory { result ≡ Err Directory → holds self.old name.now None }
        // A file is told as unreadable only where there may be none that can be read.
        ensures unreadable { result ≡ Err Unreadable → holds self.old name.now None }
        ensures same { IsSame (holds self.new) (holds self.old) };

    /// What stands beside a file of that name, which need not be there: for whoever wrote the name wrong. `AllocError`: memory was refused.
    fn beside(&mut self, alloc: Global, name: &str) -> Result<Beside, AllocError>
        ensures same { IsSame (holds self.new) (holds self.old) };

    /// Writes bytes in the place of what a file of that name holds, or in a new one where there is none.
    fn write(&mut self, alloc: Global, name: &str, bytes: &[u8]) -> Result<(), WriteRefused>
        // Where it is written the name may stand for these bytes.
        ensures written { OnOk result (holds self.new name.now (Some bytes.now)) }
        // All other names stand for what they stood for.
        ensures others { IsSameBut name.now (holds self.new) (holds self.old) };
}
