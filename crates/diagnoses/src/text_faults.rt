//! What is said of a text that is refused before it is a program.

ghost use Rattle.std.specs.Prelude.{◌≡◌, IfOk};
ghost use Rattle.text_out.specs.Out.{Writes};
ghost use Rattle.help.specs.Messages.{message_is};
ghost use Rattle.diagnoses.specs.Remarks.{remark_is};
ghost use Rattle.diagnoses.specs.Sources.{text_in};
ghost use Rattle.diagnoses.specs.SyntaxFaults.{placed as placed_in};
ghost use Rattle.diagnoses.specs.TextFaults as spec;

use crate::parts::{placed, plain};
use crate::places::byte_at;
use crate::remark::Remark;
use crate::source::{Kind, Source};
use crate::syntax_messages::syntax_message;
use help::{Message, pasted_at, pasted_text, stray_sentence};
use itoa::Buffer as Digits;
use pram_trees::TextFault;
use std::alloc::{AllocError, Global};
use text_out::{Buffer, Out, WriteFault};

fn write_not_ascii<W: Out>(out: &mut W, byte: u8) -> Result<(), WriteFault>
    ensures written { Writes (W.Out.state out.old) (W.Out.state out.new) (spec.not_ascii byte) result }
{
    let mut digits = Digits::new();
    out.write_parts(&[
        b"byte ",
        digits.format(byte).as_bytes(),
        b" is no ASCII: a text has bytes from 0 to 127 alone, in comments too",
    ])
}

fn too_long(kind: Kind) -> &'static [u8]
    ensures { result.now ≡ spec.too_long kind }
{
    match kind {
        Kind::Program => b"a program has at most 1048576 bytes",
        Kind::Input => b"an input has at most 1048576 bytes",
        Kind::Memory => b"a memory has at most 1048576 bytes",
        Kind::Listing => b"a listing has at most 8388608 bytes",
    }
}

fn bad_token(kind: Kind, text: &[u8], at: u32) -> &'static [u8]
    ensures { result.now ≡ spec.bad_token kind text.now at }
{
    match kind {
        Kind::Input => {
            b"an input has whole numbers from -9223372036854775808 to 9223372036854775807, with white space between them"
        }
        Kind::Memory => {
            b"a line of a memory is a name, the bounds of some of its cells if they are not all meant, \
            = and their values, as a[1..4] = 4 3 2 1"
        }
        Kind::Program => stray_sentence(text, at),
        Kind::Listing => stray_sentence(text, at),
    }
}

// What is said of a byte that is no ASCII.
fn of_byte(alloc: Global, source: &Source<'_>, at: u32, byte: u8) -> Result<Message, AllocError>
    ensures { IfOk result (λ m. message_is m ≡ placed_in source.now at (spec.not_ascii byte)) }
{
    let mut out = Buffer::new(alloc);
    match write_not_ascii(&mut out, byte) {
        Ok(()) => placed(alloc, source, at, out.bytes()),
        Err(WriteFault) => Err(AllocError),
    }
}

// What is said of such a byte, or of the sign that it begins.
fn of_other_byte(alloc: Global, source: &Source<'_>, at: u32) -> Result<Message, AllocError>
    ensures { IfOk result (λ m. message_is m ≡ placed_in source.now at (spec.other_byte (text_in source.now) at)) }
{
    match pasted_at(source.text(), at) {
        Some(sign) => placed(alloc, source, at, pasted_text(sign)),
        None => of_byte(alloc, source, at, byte_at(source.text(), at as usize)),
    }
}

fn of_bad_token(alloc: Global, source: &Source<'_>, at: u32) -> Result<Message, AllocError>
    ensures { IfOk result (λ m. message_is m
        ≡ placed_in source.now at (spec.bad_token source.now.kind (text_in source.now) at)) }
{
    let sentence = bad_token(source.kind, source.text(), at);
    placed(alloc, source, at, sentence)
}

/// What is said of a text that is refused for E1 to E5: where, and a sentence that says what is there. E2 has no place. Of E4 the remark
/// says what could stand there. The error is that memory was refused.
pub(crate) fn text_message(
    alloc: Global,
    source: &Source<'_>,
    fault: TextFault,
    remark: &Remark,
) -> Result<Message, AllocError>
    ensures { IfOk result (λ m. message_is m ≡ spec.text_message source.now fault (remark_is remark.now)) }
{
    match fault {
        TextFault::NotAscii(at) => of_other_byte(alloc, source, at),
        TextFault::TextTooLong => plain(alloc, too_long(source.kind)),
        TextFault::BadToken(at) => of_bad_token(alloc, source, at),
        TextFault::Syntax(at) => syntax_message(alloc, source, at, remark),
        TextFault::TooDeep(at) => placed(
            alloc,
            source,
            at,
            b"this is one level too many: blocks nest at most 64 deep, and so do expressions",
        ),
        TextFault::OutOfMemory => plain(
            alloc,
            b"memory was refused: nothing is said of the text or the run, and with more memory it may go well",
        ),
    }
}
