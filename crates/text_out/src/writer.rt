//! Where bytes are written.
ghost use Rattle.std.specs.Prelude.{◌≡◌, ◌⊎◌, ◌<◌, ◌≤◌, [], length, take, IfOk, OnOk, OnErr};
ghost use Rattle.text_out.specs.Out.{OutState, Writes, joined, with_bytes, with_failure};

use thiserror::Error;

/// The writer failed, or took no byte. It has taken nothing in that call.
#[derive(Clone, Copy, Debug, Drop, PartialEq, Eq, Error)]
#[error("E17 WriteFailed")]
pub struct OutFailed;

/// A writer failed before it had taken all of a text (E17). What it took is a beginning of the text.
#[derive(Clone, Copy, Debug, Drop, PartialEq, Eq, Error)]
#[error("E17 WriteFailed")]
pub struct WriteFault;

/// Takes bytes: a file, standard output, a buffer in memory.
pub trait Out {
    ghost state: { Self → OutState };

    /// Takes a beginning of the bytes, and answers how many. A writer that can take none of them
    /// answers that it failed, unless there are none.
    fn write(&mut self, bytes: &[u8]) -> Result<usize, OutFailed>
        ensures some { IfOk result (λ n. (bytes.now ≡ []) ⊎ (0 < n)) }
        ensures part { IfOk result (λ n. n ≤ length bytes.now) }
        ensures taken { IfOk result (λ n. state self.new ≡ with_bytes (state self.old) (take n bytes.now)) }
        ensures failed { OnErr result (state self.new ≡ with_failure (state self.old)) };

    /// Hands on what the writer has taken and still holds, where it holds any.
    fn flush(&mut self) -> Result<(), OutFailed>
        ensures ok { OnOk result (state self.new ≡ state self.old) }
        ensures failed { OnErr result (state self.new ≡ with_failure (state self.old)) }
    {
        Ok(())
    }

    /// Writes all the bytes, by as many writes as it takes.
    final fn write_all(&mut self, bytes: &[u8]) -> Result<(), WriteFault>
    where
        Self: Sized,
        // All of the text is written, or a beginning of it and then the writer failed.
        ensures written { Writes (state self.old) (state self.new) bytes.now result }
    {
        let mut rest = bytes;
        while !rest.is_empty() {
            match self.write(rest) {
                Ok(count) => rest = rest.split_at(count).1,
                Err(OutFailed) => return Err(WriteFault),
            }
        }
        Ok(())
    }

    /// Writes some texts, one behind the other.
    final fn write_parts(&mut self, parts: &[&[u8]]) -> Result<(), WriteFault>
    where
        Self: Sized,
        // All of the texts are written in order, or a beginning of them and then the writer failed.
        ensures written { Writes (state self.old) (state self.new) (joined parts.now) result }
    {
        for part in parts {
            self.write_all(part)?;
        }
        Ok(())
    }
}
