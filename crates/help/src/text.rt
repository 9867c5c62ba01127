//! Messages as text.

ghost use Rattle.std.specs.Prelude.{◌≡◌};
ghost use Rattle.text_out.specs.Out.{Writes};
ghost use Rattle.help.specs.Messages as spec;

use crate::message::{Message, Other, Point};
use text_out::{Out, WriteFault};
use text_places::{write_excerpt, write_line_excerpt};

// A place with its line.
fn write_place<W: Out>(
    out: &mut W,
    name: &[u8],
    bytes: &[u8],
    place: Option<Point>,
) -> Result<(), WriteFault>
    ensures written { Writes (W.Out.state out.old) (W.Out.state out.new) (spec.place_text name.now bytes.now place) result }
{
    match place {
        None => out.write_all(b""),
        Some(Point::Byte(at)) => write_excerpt(out, name, bytes, at),
        Some(Point::Line(line)) => write_line_excerpt(out, name, bytes, line),
    }
}

fn write_other<W: Out>(
    out: &mut W,
    name: &[u8],
    bytes: &[u8],
    other: Option<Other>,
) -> Result<(), WriteFault>
    ensures written { Writes (W.Out.state out.old) (W.Out.state out.new) (spec.other_text name.now bytes.now other) result }
{
    match other {
        None => out.write_all(b""),
        Some(Other::Begins(at)) => write_excerpt(out, name, bytes, at),
        Some(Other::Ends(at)) => write_excerpt(out, name, bytes, at),
    }
}

fn line_end(other: Option<Other>) -> &'static [u8]
    ensures { result.now ≡ spec.line_end other }
{
    match other {
        None => b"\n",
        Some(_) => b":\n",
    }
}

fn write_whole<W: Out>(out: &mut W, sentence: &[u8], other: Option<Other>) -> Result<(), WriteFault>
    ensures written { Writes (W.Out.state out.old) (W.Out.state out.new) (spec.whole_line sentence.now other) result }
{
    out.write_all(sentence)?;
    out.write_all(line_end(other))
}

// A sentence on a line, where there is one.
fn write_sentence<W: Out>(
    out: &mut W,
    sentence: &[u8],
    other: Option<Other>,
) -> Result<(), WriteFault>
    ensures written { Writes (W.Out.state out.old) (W.Out.state out.new) (spec.sentence_line sentence.now other) result }
{
    if sentence.is_empty() {
        out.write_all(b"")
    } else {
        write_whole(out, sentence, other)
    }
}

// The second sentence and the second place.
fn write_rest<W: Out>(
    out: &mut W,
    name: &[u8],
    bytes: &[u8],
    message: &Message,
) -> Result<(), WriteFault>
    ensures written { Writes (W.Out.state out.old) (W.Out.state out.new)
        (spec.rest_text name.now bytes.now (spec.message_is message.now)) result }
{
    write_sentence(out, message.more.as_slice(), None)?;
    write_other(out, name, bytes, message.other)
}

// What is said behind the place.
fn write_said<W: Out>(
    out: &mut W,
    name: &[u8],
    bytes: &[u8],
    message: &Message,
) -> Result<(), WriteFault>
    ensures written { Writes (W.Out.state out.old) (W.Out.state out.new)
        (spec.said_text name.now bytes.now (spec.message_is message.now)) result }
{
    write_sentence(out, message.sentence.as_slice(), message.other)?;
    write_rest(out, name, bytes, message)
}

/// Writes a message about a text of that name: its place, with the line and a caret, its sentence, and the second sentence or the second
/// place, if it has one. The error is that the writer failed (E17).
pub fn write_message<W: Out>(
    out: &mut W,
    name: &[u8],
    bytes: &[u8],
    message: &Message,
) -> Result<(), WriteFault>
    // Exactly the message is written, with its sentences and its places in the file, or a beginning of it and then a
    // failure.
    ensures written { Writes (W.Out.state out.old) (W.Out.state out.new)
        (spec.message_text name.now bytes.now (spec.message_is message.now)) result }
{
    write_place(out, name, bytes, message.place)?;
    write_said(out, name, bytes, message)
}
