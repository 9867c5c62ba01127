//! The system's files and streams.

ghost use Rattle.std.specs.Prelude.{◌≡◌, ◌⊎◌, ◌+◌, ◌++◌, ◌<◌, ◌≤◌, [], List, None, true, false, IfOk, OnOk, OnErr, length, take, drop, ℕ};
ghost use Rattle.text_out.specs.Out.{OutState, with_failure};
ghost use Rattle.system_files.specs.Held.{HandsOn, HasNoEnd, IsLines, held_in};

use crate::folder::{names_in, parted};
use crate::replacing::write_file;
use crate::sources::{Beside, SourceFault, Sources, WriteRefused};
use std::alloc::{Alloc, AllocError, Global};
use std::fs::{File, Files};
use std::io::{ErrorKind, Print, Read, Stdin};
use text_out::{Out, OutFailed};

// Up to behind the last end of a line that stands there; nothing where none does.
fn lines_in(bytes: &[u8]) -> usize
    ensures few { result ≤ length bytes.now }
    ensures lines { (result ≡ 0) ⊎ IsLines (take result bytes.now) }
    ensures rest { HasNoEnd (drop result bytes.now) }
{
    let mut count = bytes.len();
    while count > 0 && bytes[count - 1] != b'\n' {
        count -= 1;
    }
    count
}

/// A stream of the system, to which bytes go by whole lines: by as many as have room in 4,096 bytes, or by one that is longer. What it took
/// is with the system after a flush; what the system did with it isn't known.
#[derive(Drop)]
pub struct Stream<P: Print> {
    stream: P,
    // the beginning of a line that is longer than a block, which stands before what is held
    long: Vec<u8>,
    held: [u8; 4096],
    len: usize,
    failed: bool,
    ghost inside: { len ≤ 4096 },
}

impl<P: Print> Stream<P> {
    /// Nothing is held, and nothing has failed.
    pub fn new(alloc: Global, stream: P) -> Stream<P>
        ensures { (⟦<Stream<P> as Out>⟧.state result).failed ≡ false }
    {
        Stream {
            stream,
            long: Vec::new(alloc),
            held: [0; 4096],
            len: 0,
            failed: false,
        }
    }

    // Hands what is held up to there to the system, with the beginning of a long line before it, at once where there is memory for that.
    fn hand_on(&mut self, end: usize) -> Result<(), OutFailed>
        requires inside { end ≤ self.old.len }
        ensures ok { OnOk result ((self.new.failed ≡ self.old.failed) × (self.new.long.items ≡ [])) }
        ensures failed { OnErr result (self.new.failed ≡ true) }
        ensures held { (self.new.held ≡ self.old.held) × (self.new.len ≡ self.old.len) }
    {
        let told = if self.long.is_empty() {
            self.stream.write_all(&self.held[..end])
        } else if self.long.extend_from_slice(&self.held[..end]).is_ok() {
            self.stream.write_all(&self.long)
        } else {
            self.stream
                .write_all(&self.long)
                .and_then(|()| self.stream.write_all(&self.held[..end]))
        };
        self.long.clear();
        self.failed = self.failed || told.is_err();
        if told.is_ok() { Ok(()) } else { Err(OutFailed) }
    }

    // Hands all that is held to the system.
    fn pass(&mut self) -> Result<(), OutFailed>
        ensures ok { OnOk result ((self.new.failed ≡ self.old.failed) × (self.new.len ≡ 0) × (self.new.long.items ≡ [])) }
        ensures failed { OnErr result (self.new.failed ≡ true) }
    {
        let told = self.hand_on(self.len);
        self.len = 0;
        told
    }

    // Hands whole lines on, of which the rest stays; or makes room for the rest of a long one.
    fn make_room(&mut self) -> Result<(), OutFailed>
        requires full { self.old.len ≡ 4096 }
        ensures room { OnOk result (self.new.len < 4096) }
        ensures kept { OnOk result (HandsOn self.old.long self.old.len self.old.held
            (held_in self.new.long.items self.new.len self.new.held) × (self.new.failed ≡ self.old.failed)) }
        ensures failed { OnErr result (self.new.failed ≡ true) }
    {
        let end = lines_in(&self.held);
        if end > 0 {
            self.hand_on(end)?;
            self.held.copy_within(end..4096, 0);
            self.len = 4096 - end;
            return Ok(());
        }
        if self.long.extend_from_slice(&self.held).is_err() {
            return self.pass();
        }
        self.len = 0;
        Ok(())
    }

    // Where a block is full, hands whole lines on as `make_room` does.
    fn make_room_in_full(&mut self) -> Result<(), OutFailed>
        ensures room { OnOk result (self.new.len < 4096) }
        ensures kept { OnOk result (HandsOn self.old.long self.old.len self.old.held
            (held_in self.new.long.items self.new.len self.new.held) × (self.new.failed ≡ self.old.failed)) }
        ensures failed { OnErr result (self.new.failed ≡ true) }
    {
        if self.len == 4096 {
            return self.make_room();
        }
        Ok(())
    }

    // Holds more bytes, behind those held.
    fn hold(&mut self, bytes: &[u8])
        requires room { self.old.len + length bytes.now ≤ 4096 }
        ensures kept { take self.new.len self.new.held ≡ take self.old.len self.old.held ++ bytes.now }
        ensures long { self.new.long ≡ self.old.long }
        ensures failed { self.new.failed ≡ self.old.failed }
    {
        let end = self.len + bytes.len();
        self.held[self.len..end].copy_from_slice(bytes);
        self.len = end;
    }
}

impl<P: Print> Out for Stream<P> {
    ghost state = { λ s. record { taken = None; failed = s.failed } };

    fn write(&mut self, bytes: &[u8]) -> Result<usize, OutFailed>
        ensures some { IfOk result (λ n. (bytes.now ≡ []) ⊎ (0 < n)) }
        ensures part { IfOk result (λ n. n ≤ length bytes.now) }
        // The taken bytes are held behind a block with room, behind what follows the lines of a full one, or behind a
        // longer line, or alone for want of room.
        ensures taken { IfOk result (λ n. (still : List ℕ) × HandsOn self.old.long self.old.len self.old.held still
            × (held_in self.new.long.items self.new.len self.new.held ≡ still ++ take n bytes.now) × (self.new.failed ≡ self.old.failed)) }
        ensures failed { OnErr result (self.new.failed ≡ true) }
    {
        self.make_room_in_full()?;
        let count = bytes.len().min(4096 - self.len);
        self.hold(&bytes[..count]);
        Ok(count)
    }

    fn flush(&mut self) -> Result<(), OutFailed>
        ensures ok { OnOk result ((self.new.failed ≡ self.old.failed) × (self.new.len ≡ 0) × (self.new.long.items ≡ [])) }
        ensures failed { OnErr result (self.new.failed ≡ true) }
    {
        self.pass()
    }
}

/// The name that stands for standard input.
const INPUT: &str = "-";

/// The files of the system, of which `-` is standard input, once.
#[derive(Drop)]
pub struct SystemFiles<'a, R: Files + Alloc + Clone + Drop> {
    system: &'a R,
    // until it is read
    input: Option<Stdin>,
}

impl<'a, R: Files + Alloc + Clone + Drop> SystemFiles<'a, R> {
    /// Those of this system, whose standard input wasn't read yet.
    pub fn new(system: &'a R, input: Stdin) -> SystemFiles<'a, R> {
        SystemFiles {
            system,
            input: Some(input),
        }
    }
}

impl<'a, R: Files + Alloc + Clone + Drop> Sources for SystemFiles<'a, R> {
    // what the system's files hold isn't known
    ghost holds = { λ s name bytes. Unit {0} };

    fn read(&mut self, alloc: Global, name: &str, most: u32) -> Result<Vec<u8>, SourceFault> {
        if name == INPUT {
            // what was read of it is gone
            return match self.input.take() {
                Some(input) => read_most(alloc, input, most),
                None => Err(SourceFault::Unreadable),
            };
        }
        match File::open(self.system, name) {
            Ok(file) => read_most(alloc, file, most),
            Err(fault) => Err(why(fault.kind())),
        }
    }

    fn beside(&mut self, alloc: Global, name: &str) -> Result<Beside, AllocError> {
        let (folder, last) = parted(name);
        Ok(Beside {
            name: Vec::from_slice(alloc, last.as_bytes())?,
            others: names_in(self.system, alloc, folder)?,
        })
    }

    fn write(&mut self, alloc: Global, name: &str, bytes: &[u8]) -> Result<(), WriteRefused> {
        if name == INPUT {
            return Err(WriteRefused::Unwritable);
        }
        write_file(self.system, alloc, name, bytes)
    }
}

// The bytes of a stream, or a beginning of more than `most`.
fn read_most<S: Read + Drop>(alloc: Global, stream: S, most: u32) -> Result<Vec<u8>, SourceFault> {
    let mut bytes = Vec::new(alloc);
    match stream.take(u64::from(most) + 1).read_to_end(&mut bytes) {
        Ok(_) => Ok(bytes),
        Err(fault) => Err(why(fault.kind())),
    }
}

fn why(kind: ErrorKind) -> SourceFault {
    match kind {
        ErrorKind::OutOfMemory => SourceFault::OutOfMemory,
        ErrorKind::NotFound | ErrorKind::NotADirectory => SourceFault::Missing,
        ErrorKind::IsADirectory => SourceFault::Directory,
        _ => SourceFault::Unreadable,
    }
}
