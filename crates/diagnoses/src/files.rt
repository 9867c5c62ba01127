//! What is said of a file that can't be read.

ghost use Rattle.std.specs.Prelude.{◌≡◌, IfOk};
ghost use Rattle.std.specs.Option.{option_map};
ghost use Rattle.text_out.specs.Out.{Writes};
ghost use Rattle.help.specs.Messages.{message_is};
ghost use Rattle.diagnoses.specs.Files as spec;

use crate::about::{About, Unread};
use crate::parts::plain;
use help::Message;
use std::alloc::{AllocError, Global};
use text_out::{Buffer, Out, WriteFault};
use text_places::write_escaped;

fn write_name_end<W: Out>(out: &mut W, name: &[u8]) -> Result<(), WriteFault>
    ensures written { Writes (W.Out.state out.old) (W.Out.state out.new) (spec.guess_end name.now) result }
{
    write_escaped(out, name)?;
    out.write_all(b"\"?")
}

fn write_guess<W: Out>(out: &mut W, name: &[u8]) -> Result<(), WriteFault>
    ensures written { Writes (W.Out.state out.old) (W.Out.state out.new) (spec.guess name.now) result }
{
    out.write_all(b"did you mean \"")?;
    write_name_end(out, name)
}

fn guess_text(alloc: Global, name: &[u8]) -> Result<Vec<u8>, AllocError>
    ensures { IfOk result (λ text. text.items ≡ spec.guess name.now) }
{
    let mut text = Buffer::new(alloc);
    match write_guess(&mut text, name) {
        Ok(()) => Vec::from_slice(alloc, text.bytes()),
        Err(_) => Err(AllocError),
    }
}

// There is no file of this name, and one is spelled nearly so.
fn nearly(alloc: Global, name: &[u8]) -> Result<Message, AllocError>
    ensures { IfOk result (λ m. message_is m ≡ spec.nearly name.now) }
{
    let message = plain(alloc, b"there is no file of this name")?;
    let guess = guess_text(alloc, name)?;
    let meant = Vec::from_slice(alloc, name)?;
    Ok(message.with_more(guess).with_meant(Some(meant)))
}

fn missing(alloc: Global, near: &Option<Vec<u8>>) -> Result<Message, AllocError>
    ensures { IfOk result (λ m. message_is m ≡ spec.missing (option_map (λ v. v.items) near.now)) }
{
    match near {
        None => plain(alloc, b"there is no file of this name"),
        Some(name) => nearly(alloc, name),
    }
}

fn of_unread(alloc: Global, unread: &Unread) -> Result<Message, AllocError>
    ensures { IfOk result (λ m. message_is m ≡ spec.of_unread unread.now) }
{
    match unread {
        Unread::Missing(near) => missing(alloc, near),
        Unread::Directory => plain(alloc, b"this is a directory"),
        Unread::Other => plain(alloc, b"this file can't be read"),
        Unread::Unwritable => plain(alloc, b"this file can't be written"),
    }
}

/// Why a file can't be read, where that is known.
pub(crate) fn file_message(alloc: Global, about: &About<'_>) -> Result<Message, AllocError>
    ensures { IfOk result (λ m. message_is m ≡ spec.file_message about.now) }
{
    match about {
        About::File(unread) => of_unread(alloc, unread),
        About::Nothing => of_unread(alloc, &Unread::Other),
        About::Text(_) => of_unread(alloc, &Unread::Other),
        About::Line { .. } => of_unread(alloc, &Unread::Other),
        About::Values { .. } => of_unread(alloc, &Unread::Other),
    }
}
