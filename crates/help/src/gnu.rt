//! Messages in lines that editors read.

ghost use Rattle.std.specs.Prelude.{◌≡◌};
ghost use Rattle.text_out.specs.Out.{Writes};
ghost use Rattle.help.specs.Messages.{message_is};
ghost use Rattle.help.specs.GnuLines as spec;

use crate::message::{Message, Other, Point};
use itoa::Buffer;
use text_out::{Out, WriteFault};
use text_places::{Place, place_of, write_escaped, write_shown};

fn write_file<W: Out>(out: &mut W, name: &[u8]) -> Result<(), WriteFault>
    ensures written { Writes (W.Out.state out.old) (W.Out.state out.new) (spec.file name.now) result }
{
    write_escaped(out, name)?;
    out.write_all(b":")
}

fn write_number<W: Out>(out: &mut W, number: usize) -> Result<(), WriteFault>
    ensures written { Writes (W.Out.state out.old) (W.Out.state out.new) (spec.number number) result }
{
    let mut digits = Buffer::new();
    out.write_parts(&[digits.format(number).as_bytes(), b":"])
}

fn write_numbers<W: Out>(out: &mut W, place: Place) -> Result<(), WriteFault>
    ensures written { Writes (W.Out.state out.old) (W.Out.state out.new) (spec.numbers place) result }
{
    write_number(out, place.line)?;
    write_number(out, place.column)
}

// The line and the column, or the line alone, or neither.
fn write_point<W: Out>(out: &mut W, bytes: &[u8], place: Option<Point>) -> Result<(), WriteFault>
    ensures written { Writes (W.Out.state out.old) (W.Out.state out.new) (spec.point bytes.now place) result }
{
    match place {
        None => out.write_all(b""),
        Some(Point::Line(line)) => write_number(out, line),
        Some(Point::Byte(at)) => write_numbers(out, place_of(bytes, at)),
    }
}

fn write_spaced<W: Out>(out: &mut W, bytes: &[u8], place: Option<Point>) -> Result<(), WriteFault>
    ensures written { Writes (W.Out.state out.old) (W.Out.state out.new) (spec.spaced bytes.now place) result }
{
    write_point(out, bytes, place)?;
    out.write_all(b" ")
}

// `sum.pram:4:7: `
fn write_place<W: Out>(
    out: &mut W,
    name: &[u8],
    bytes: &[u8],
    place: Option<Point>,
) -> Result<(), WriteFault>
    ensures written { Writes (W.Out.state out.old) (W.Out.state out.new) (spec.place name.now bytes.now place) result }
{
    write_file(out, name)?;
    write_spaced(out, bytes, place)
}

fn write_code<W: Out>(out: &mut W, code: &[u8]) -> Result<(), WriteFault>
    ensures written { Writes (W.Out.state out.old) (W.Out.state out.new) (spec.bracketed code.now) result }
{
    write_shown(out, code)?;
    out.write_all(b"]")
}

fn write_coded<W: Out>(out: &mut W, code: &[u8]) -> Result<(), WriteFault>
    ensures written { Writes (W.Out.state out.old) (W.Out.state out.new) (spec.coded code.now) result }
{
    out.write_all(b" [")?;
    write_code(out, code)
}

fn write_sentence<W: Out>(out: &mut W, sentence: &[u8], code: &[u8]) -> Result<(), WriteFault>
    ensures written { Writes (W.Out.state out.old) (W.Out.state out.new) (spec.with_code sentence.now code.now) result }
{
    write_shown(out, sentence)?;
    write_coded(out, code)
}

// `error: SENTENCE [E6]`
fn write_error<W: Out>(out: &mut W, sentence: &[u8], code: &[u8]) -> Result<(), WriteFault>
    ensures written { Writes (W.Out.state out.old) (W.Out.state out.new) (spec.error sentence.now code.now) result }
{
    out.write_all(b"error: ")?;
    write_sentence(out, sentence, code)
}

// `note: SENTENCE`
fn write_note<W: Out>(out: &mut W, sentence: &[u8]) -> Result<(), WriteFault>
    ensures written { Writes (W.Out.state out.old) (W.Out.state out.new) (spec.note sentence.now) result }
{
    out.write_all(b"note: ")?;
    write_shown(out, sentence)
}

fn write_error_line<W: Out>(
    out: &mut W,
    name: &[u8],
    bytes: &[u8],
    place: Option<Point>,
    sentence: &[u8],
    code: &[u8],
) -> Result<(), WriteFault>
    ensures written { Writes (W.Out.state out.old) (W.Out.state out.new)
        (spec.error_line name.now bytes.now place sentence.now code.now) result }
{
    write_place(out, name, bytes, place)?;
    write_error(out, sentence, code)
}

fn write_note_line<W: Out>(
    out: &mut W,
    name: &[u8],
    bytes: &[u8],
    place: Option<Point>,
    sentence: &[u8],
) -> Result<(), WriteFault>
    ensures written { Writes (W.Out.state out.old) (W.Out.state out.new)
        (spec.note_line name.now bytes.now place sentence.now) result }
{
    write_place(out, name, bytes, place)?;
    write_note(out, sentence)
}

fn write_whole_error<W: Out>(
    out: &mut W,
    name: &[u8],
    bytes: &[u8],
    place: Option<Point>,
    sentence: &[u8],
    code: &[u8],
) -> Result<(), WriteFault>
    ensures written { Writes (W.Out.state out.old) (W.Out.state out.new)
        (spec.whole_error name.now bytes.now place sentence.now code.now) result }
{
    write_error_line(out, name, bytes, place, sentence, code)?;
    out.write_all(b"\n")
}

fn write_whole_note<W: Out>(
    out: &mut W,
    name: &[u8],
    bytes: &[u8],
    place: Option<Point>,
    sentence: &[u8],
) -> Result<(), WriteFault>
    ensures written { Writes (W.Out.state out.old) (W.Out.state out.new)
        (spec.whole_note name.now bytes.now place sentence.now) result }
{
    write_note_line(out, name, bytes, place, sentence)?;
    out.write_all(b"\n")
}

// The sentence, where there is one.
fn write_first<W: Out>(
    out: &mut W,
    name: &[u8],
    bytes: &[u8],
    place: Option<Point>,
    sentence: &[u8],
    code: &[u8],
) -> Result<(), WriteFault>
    ensures written { Writes (W.Out.state out.old) (W.Out.state out.new)
        (spec.error_text name.now bytes.now place sentence.now code.now) result }
{
    if sentence.is_empty() {
        out.write_all(b"")
    } else {
        write_whole_error(out, name, bytes, place, sentence, code)
    }
}

// The second sentence, where there is one.
fn write_more<W: Out>(
    out: &mut W,
    name: &[u8],
    bytes: &[u8],
    place: Option<Point>,
    sentence: &[u8],
) -> Result<(), WriteFault>
    ensures written { Writes (W.Out.state out.old) (W.Out.state out.new)
        (spec.more_text name.now bytes.now place sentence.now) result }
{
    if sentence.is_empty() {
        out.write_all(b"")
    } else {
        write_whole_note(out, name, bytes, place, sentence)
    }
}

fn other_note(other: Other) -> &'static [u8]
    ensures { result.now ≡ spec.other_note other }
{
    match other {
        Other::Begins(_) => b"it begins here",
        Other::Ends(_) => b"it ends here",
    }
}

fn other_place(other: Other) -> Point
    ensures { result ≡ spec.other_place other }
{
    match other {
        Other::Begins(at) => Point::Byte(at),
        Other::Ends(at) => Point::Byte(at),
    }
}

// The second place, where there is one.
fn write_other<W: Out>(
    out: &mut W,
    name: &[u8],
    bytes: &[u8],
    other: Option<Other>,
) -> Result<(), WriteFault>
    ensures written { Writes (W.Out.state out.old) (W.Out.state out.new)
        (spec.other_text name.now bytes.now other) result }
{
    match other {
        None => out.write_all(b""),
        Some(other) => {
            let place = Some(other_place(other));
            write_whole_note(out, name, bytes, place, other_note(other))
        }
    }
}

fn write_notes<W: Out>(
    out: &mut W,
    name: &[u8],
    bytes: &[u8],
    message: &Message,
) -> Result<(), WriteFault>
    ensures written { Writes (W.Out.state out.old) (W.Out.state out.new)
        (spec.notes_text name.now bytes.now (message_is message.now)) result }
{
    write_more(out, name, bytes, message.place, message.more.as_slice())?;
    write_other(out, name, bytes, message.other)
}

/// Writes a message about a text of that name in lines that editors read: `sum.pram:4:7: error: SENTENCE [E6]` with the code of the
/// refusal, and a note for the second sentence and for the second place. A line stands without a column, and without a place the file
/// alone. Nothing in it steers a terminal. The error is that the writer failed (E17).
pub fn write_gnu<W: Out>(
    out: &mut W,
    name: &[u8],
    bytes: &[u8],
    message: &Message,
    code: &[u8],
) -> Result<(), WriteFault>
    // Exactly the message's lines for editors are written, `FILE:LINE:COLUMN: error: .. [E6]` and notes behind it, or a
    // beginning of them and then a failure.
    ensures written { Writes (W.Out.state out.old) (W.Out.state out.new)
        (spec.gnu_text name.now bytes.now (message_is message.now) code.now) result }
{
    let sentence = message.sentence.as_slice();
    write_first(out, name, bytes, message.place, sentence, code)?;
    write_notes(out, name, bytes, message)
}
