//! What is said of a text with sizes that has no expansion.

ghost use Rattle.std.specs.Prelude.{◌≡◌, IfOk};
ghost use Rattle.pram_model.specs.Names.{is_one_of};
ghost use Rattle.text_out.specs.Out.{Writes};
ghost use Rattle.help.specs.Messages.{message_is};
ghost use Rattle.diagnoses.specs.SizeFaults as spec;

use crate::parts::at_byte;
use crate::places::{byte_at, token_at, write_quoted};
use crate::source::Source;
use help::{Message, word_before};
use sized_texts::Reason;
use std::alloc::{AllocError, Global};
use text_out::{Buffer, Out, WriteFault};

// What a reason means, of anything but a name.
fn size_sentence(reason: Reason) -> &'static [u8]
    ensures { result.now ≡ spec.size_sentence reason }
{
    match reason {
        Reason::BadLine => {
            b"a size line has the form \"# size NAME = VALUE\", with a value from 0 to 9223372036854775807"
        }
        Reason::Keyword => {
            b"a size has a name of its own: no keyword, and none of log, root and pow"
        }
        Reason::Repeated => b"a size line above has this name already",
        Reason::UnknownName => b"no size has this name",
        Reason::Unexpected => {
            b"this can't stand here: a size line has a number behind its \"=\", and an expression of sizes has \
            numbers, names of sizes, + - * div mod, parentheses, log(..), root(..) and pow(.., ..)"
        }
        Reason::NotClosed => b"the line ends here, and its brace is not closed",
        Reason::OutOfRange => b"this comes to a number below 0 or above 9223372036854775807",
        Reason::ZeroDivisor => b"here a number is divided by 0",
        Reason::LogOfZero => b"0 has no logarithm",
        Reason::TooDeep => b"this is one level too many: expressions of sizes nest at most 64 deep",
    }
}

// What is said behind a name.
fn no_size(word: &[u8]) -> &'static [u8]
    ensures { result.now ≡ spec.no_size word.now }
{
    match word {
        b"sqrt" => b" is no size: write root(n)",
        b"lg" | b"ln" | b"log2" => b" is no size: write log(n)",
        _ => b" is no size: no line \"# size NAME = VALUE\" before the program has this name",
    }
}

fn write_unknown_size<W: Out>(out: &mut W, word: &[u8]) -> Result<(), WriteFault>
    ensures written { Writes (W.Out.state out.old) (W.Out.state out.new) (spec.unknown_size word.now) result }
{
    write_quoted(out, word)?;
    out.write_all(no_size(word))
}

// A digit in front, and no digit at the end.
fn is_product(word: &[u8]) -> bool
    ensures { result ≡ spec.is_product word.now }
{
    byte_at(word, 0).is_ascii_digit()
        && !byte_at(word, word.len().saturating_sub(1)).is_ascii_digit()
}

fn is_function(word: &[u8]) -> bool
    ensures { result ≡ is_one_of spec.function_words word.now }
{
    matches!(word, b"log" | b"root" | b"pow")
}

// Whether a function of sizes stands a byte before that place.
fn is_called(text: &[u8], at: usize) -> bool
    ensures { result ≡ spec.is_called text.now at }
{
    at <= text.len() && is_function(word_before(text, at.saturating_sub(1)))
}

fn is_power(byte: u8, before: u8) -> bool
    ensures { result ≡ spec.is_power byte before }
{
    byte == b'^' || (byte == b'*' && before == b'*')
}

// What can't stand in an expression of sizes, as it is written elsewhere.
fn unexpected(text: &[u8], at: usize) -> &'static [u8]
    ensures { result.now ≡ spec.unexpected text.now at }
{
    let byte = byte_at(text, at);
    if byte == b'/' {
        b"division is \"div\": write n div 2"
    } else if is_power(byte, byte_at(text, at.saturating_sub(1))) {
        b"there is no sign for a power: write n * n, or pow(n, 2)"
    } else if is_product(token_at(text, at)) {
        b"between a number and a name stands \"*\": write 2 * n"
    } else if is_called(text, at) {
        b"log, root and pow have parentheses: write log(n)"
    } else {
        size_sentence(Reason::Unexpected)
    }
}

// Why, at that place of a text.
fn write_reason<W: Out>(
    out: &mut W,
    text: &[u8],
    at: usize,
    reason: Reason,
) -> Result<(), WriteFault>
    ensures written { Writes (W.Out.state out.old) (W.Out.state out.new) (spec.reason_text text.now at reason) result }
{
    match reason {
        Reason::UnknownName => write_unknown_size(out, token_at(text, at)),
        Reason::Unexpected => out.write_all(unexpected(text, at)),
        _ => out.write_all(size_sentence(reason)),
    }
}

/// What is said of a text with sizes that has no expansion (E19): where, and why. The error is that memory was refused.
pub(crate) fn size_message(
    alloc: Global,
    source: &Source<'_>,
    at: u32,
    reason: Reason,
) -> Result<Message, AllocError>
    ensures { IfOk result (λ m. message_is m ≡ spec.size_message source.now at reason) }
{
    let mut out = Buffer::new(alloc);
    match write_reason(&mut out, source.bytes.as_slice(), at as usize, reason) {
        Ok(()) => at_byte(alloc, at as usize, out.bytes()),
        Err(WriteFault) => Err(AllocError),
    }
}
