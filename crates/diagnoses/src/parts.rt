//! Messages of one sentence.

ghost use Rattle.std.specs.Prelude.{◌≡◌, IfOk, None, Some};
ghost use Rattle.help.specs.declared.message.Point.TheVariants.{Byte};
ghost use Rattle.help.specs.Messages.{message_is, said};
ghost use Rattle.diagnoses.specs.SyntaxFaults as syntax;

use crate::source::Source;
use help::{Message, Point};
use std::alloc::{AllocError, Global};

/// A sentence that has no place.
pub(crate) fn plain(alloc: Global, sentence: &[u8]) -> Result<Message, AllocError>
    ensures { IfOk result (λ m. message_is m ≡ said None sentence.now) }
{
    let bytes = Vec::from_slice(alloc, sentence)?;
    Ok(Message::said(alloc, None, bytes))
}

/// A sentence about a byte of a file.
pub(crate) fn at_byte(alloc: Global, at: usize, sentence: &[u8]) -> Result<Message, AllocError>
    ensures { IfOk result (λ m. message_is m ≡ said (Some (Byte at)) sentence.now) }
{
    let bytes = Vec::from_slice(alloc, sentence)?;
    Ok(Message::said(alloc, Some(Point::Byte(at)), bytes))
}

/// A sentence about a byte of the text that is judged, with its place in the file.
pub(crate) fn placed(
    alloc: Global,
    source: &Source<'_>,
    at: u32,
    sentence: &[u8],
) -> Result<Message, AllocError>
    ensures { IfOk result (λ m. message_is m ≡ syntax.placed source.now at sentence.now) }
{
    at_byte(alloc, source.origin(at) as usize, sentence)
}
