//! What is said behind the line of a refusal.

ghost use Rattle.std.specs.Prelude.{◌≡◌, ◌++◌, List, ℕ, IfOk, None};
ghost use Rattle.text_out.specs.Out.{Writes};
ghost use Rattle.help.specs.Messages.{message_is, said};
ghost use Rattle.diagnoses.specs.Remarks.{remark_is};
ghost use Rattle.diagnoses.specs.FalseLines.{note_about};
ghost use Rattle.diagnoses.specs.Stops as spec;

use crate::about::About;
use crate::breaches::breach_message;
use crate::false_lines::write_note_about;
use crate::files::file_message;
use crate::parts::{at_byte, plain};
use crate::places::is_same;
use crate::remark::{Remark, expected_at, remark_of};
use crate::size_faults::size_message;
use crate::text_faults::text_message;
use help::{Message, Point, write_message};
use itoa::Buffer as Digits;
use pram_check::Breach;
use pram_trees::TextFault;
use program_texts::{Refusal, Stop};
use sized_texts::Reason;
use std::alloc::{AllocError, Global};
use text_out::{Buffer, Out, WriteFault};

// A text that is refused.
fn of_text(
    alloc: Global,
    fault: TextFault,
    about: &About<'_>,
    remark: &Remark,
) -> Result<Message, AllocError>
    ensures { IfOk result (λ m. message_is m ≡ spec.of_text fault about.now (remark_is remark.now)) }
{
    match about {
        About::Text(source) => text_message(alloc, source, fault, remark),
        About::Nothing => Ok(Message::nothing(alloc)),
        About::Line { .. } => Ok(Message::nothing(alloc)),
        About::Values { .. } => Ok(Message::nothing(alloc)),
        About::File(_) => Ok(Message::nothing(alloc)),
    }
}

// A program that is refused.
fn of_program(
    alloc: Global,
    breach: Breach,
    about: &About<'_>,
    remark: &Remark,
) -> Result<Message, AllocError>
    ensures { IfOk result (λ m. message_is m ≡ spec.of_program breach about.now (remark_is remark.now)) }
{
    match about {
        About::Text(source) => breach_message(alloc, source, breach, remark),
        About::Nothing => Ok(Message::nothing(alloc)),
        About::Line { .. } => Ok(Message::nothing(alloc)),
        About::Values { .. } => Ok(Message::nothing(alloc)),
        About::File(_) => Ok(Message::nothing(alloc)),
    }
}

fn write_too_many<W: Out>(out: &mut W, values: usize, cells: u32) -> Result<(), WriteFault>
    ensures written { Writes (W.Out.state out.old) (W.Out.state out.new) (spec.too_many values cells) result }
{
    let mut count = Digits::new();
    let mut room = Digits::new();
    out.write_parts(&[
        b"there are ",
        count.format(values).as_bytes(),
        b" values, and the cells for them are ",
        room.format(cells).as_bytes(),
    ])
}

fn of_values(alloc: Global, values: usize, cells: u32) -> Result<Message, AllocError>
    ensures { IfOk result (λ m. message_is m ≡ said None (spec.too_many values cells)) }
{
    let mut out = Buffer::new(alloc);
    match write_too_many(&mut out, values, cells) {
        Ok(()) => plain(alloc, out.bytes()),
        Err(WriteFault) => Err(AllocError),
    }
}

// An input that is too long.
fn of_input(alloc: Global, about: &About<'_>) -> Result<Message, AllocError>
    ensures { IfOk result (λ m. message_is m ≡ spec.of_input about.now) }
{
    match about {
        About::Values { values, cells } => of_values(alloc, *values, *cells),
        About::Nothing => Ok(Message::nothing(alloc)),
        About::Line { .. } => Ok(Message::nothing(alloc)),
        About::Text(_) => Ok(Message::nothing(alloc)),
        About::File(_) => Ok(Message::nothing(alloc)),
    }
}

fn of_refusal(
    alloc: Global,
    refusal: Refusal,
    about: &About<'_>,
    remark: &Remark,
) -> Result<Message, AllocError>
    ensures { IfOk result (λ m. message_is m ≡ spec.of_refusal refusal about.now (remark_is remark.now)) }
{
    match refusal {
        Refusal::Text(fault) => of_text(alloc, fault, about, remark),
        Refusal::Program(breach) => of_program(alloc, breach, about, remark),
        Refusal::InputTooLong => of_input(alloc, about),
        Refusal::BadMap => plain(
            alloc,
            b"`--map` wants affine:A,B with an odd A, so that no two cells have one place",
        ),
        Refusal::BadWorkers => plain(alloc, b"`--workers` wants a number from 1 to 32"),
        Refusal::OutOfMemory => plain(
            alloc,
            b"memory was refused: nothing is said of the text or the run, and with more memory it may go well",
        ),
        Refusal::OutOfReserve => plain(
            alloc,
            b"the run prints more numbers, or has more exchanges, than its reserve was made for",
        ),
    }
}

fn of_line(alloc: Global, at: u32) -> Result<Message, AllocError>
    ensures { IfOk result (λ m. message_is m ≡ spec.line_fault at) }
{
    at_byte(
        alloc,
        at as usize,
        b"no listing goes on with this line, or one is missing here",
    )
}

// A text that is no listing.
fn of_listing(alloc: Global, at: u32, about: &About<'_>) -> Result<Message, AllocError>
    ensures { IfOk result (λ m. message_is m ≡ spec.of_listing at about.now) }
{
    match about {
        About::Text(_) => of_line(alloc, at),
        About::Nothing => Ok(Message::nothing(alloc)),
        About::Line { .. } => Ok(Message::nothing(alloc)),
        About::Values { .. } => Ok(Message::nothing(alloc)),
        About::File(_) => Ok(Message::nothing(alloc)),
    }
}

// What the word for a reason means.
fn reason_sentence(word: &[u8]) -> &'static [u8]
    ensures { result.now ≡ spec.reason_sentence word.now }
{
    if is_same(word, b"state") {
        b"no lower place leads here, or one that does comes in another state"
    } else if is_same(word, b"register") {
        b"it names a register that isn't there"
    } else if is_same(word, b"entry") {
        b"it names an entry that the layout doesn't have"
    } else if is_same(word, b"target") {
        b"its target is no instruction, or is neither above it nor a mark"
    } else if is_same(word, b"mode") {
        b"it may not stand there: some stand outside of a range alone, some within"
    } else if is_same(word, b"mask") {
        b"it is a 65th mask, or wants one that isn't on, or leaves one on"
    } else if is_same(word, b"exchange") {
        b"an exchange, a reply, a read or a put may not stand there"
    } else {
        b"it is the last one and goes on, or there are no instructions"
    }
}

fn write_instruction_fault<W: Out>(out: &mut W, at: u32, word: &[u8]) -> Result<(), WriteFault>
    ensures written { Writes (W.Out.state out.old) (W.Out.state out.new) (spec.instruction_fault at word.now) result }
{
    let mut digits = Digits::new();
    out.write_parts(&[
        b"instruction ",
        digits.format(at).as_bytes(),
        b": ",
        reason_sentence(word),
    ])
}

// The line that is meant, where one is known.
fn meant_line(about: &About<'_>) -> Option<Point>
    ensures { result ≡ spec.meant_line about.now }
{
    match about {
        About::Line { line, .. } => Some(Point::Line(*line)),
        About::Nothing => None,
        About::Text(_) => None,
        About::Values { .. } => None,
        About::File(_) => None,
    }
}

fn instruction_sentence(alloc: Global, at: u32, word: &[u8]) -> Result<Vec<u8>, AllocError>
    ensures { IfOk result (λ sentence. sentence.items ≡ spec.instruction_fault at word.now) }
{
    let mut out = Buffer::new(alloc);
    match write_instruction_fault(&mut out, at, word) {
        Ok(()) => Vec::from_slice(alloc, out.bytes()),
        Err(WriteFault) => Err(AllocError),
    }
}

// Code that isn't well formed.
fn of_code(alloc: Global, at: u32, word: &[u8], about: &About<'_>) -> Result<Message, AllocError>
    ensures { IfOk result (λ m. message_is m ≡ spec.of_code at word.now about.now) }
{
    let sentence = instruction_sentence(alloc, at, word)?;
    Ok(Message::said(alloc, meant_line(about), sentence))
}

// A text with sizes that has no expansion.
fn of_size(alloc: Global, at: u32, reason: Reason, about: &About<'_>) -> Result<Message, AllocError>
    ensures { IfOk result (λ m. message_is m ≡ spec.of_size at reason about.now) }
{
    match about {
        About::Text(source) => size_message(alloc, source, at, reason),
        About::Nothing => Ok(Message::nothing(alloc)),
        About::Line { .. } => Ok(Message::nothing(alloc)),
        About::Values { .. } => Ok(Message::nothing(alloc)),
        About::File(_) => Ok(Message::nothing(alloc)),
    }
}

// What is said, by what there is to say of a name or of a token.
fn stop_message(
    alloc: Global,
    stop: &Stop<'_>,
    about: &About<'_>,
    remark: &Remark,
) -> Result<Message, AllocError>
    ensures { IfOk result (λ m. message_is m ≡ spec.stop_message stop.now about.now (remark_is remark.now)) }
{
    match stop {
        Stop::Words(_) => Ok(Message::nothing(alloc)),
        Stop::Number(_) => Ok(Message::nothing(alloc)),
        Stop::Unreadable(_) => file_message(alloc, about),
        Stop::Refused(refusal) => of_refusal(alloc, *refusal, about, remark),
        Stop::NotVerified(at, reason) => of_code(alloc, *at, reason.as_bytes(), about),
        Stop::BadListing(at) => of_listing(alloc, *at, about),
        Stop::WriteFailed => plain(
            alloc,
            b"standard output failed: what stands there is a beginning of the text",
        ),
        Stop::BadSize(at, reason) => of_size(alloc, *at, *reason, about),
    }
}

// What there is to say of a name, of a program whose text is at hand.
fn remark_in(alloc: Global, breach: Breach, about: &About<'_>) -> Result<Remark, AllocError>
    ensures { IfOk result (λ r. spec.IsRemarkIn breach about.now (remark_is r)) }
{
    match about {
        About::Text(source) => remark_of(alloc, source.text(), breach),
        About::Nothing => Ok(Remark::Nothing),
        About::Line { .. } => Ok(Remark::Nothing),
        About::Values { .. } => Ok(Remark::Nothing),
        About::File(_) => Ok(Remark::Nothing),
    }
}

// What there is to say of a token with which no program goes on, of a text that is at hand.
fn expected_in(alloc: Global, at: u32, about: &About<'_>) -> Result<Remark, AllocError>
    ensures { IfOk result (λ r. spec.IsExpectationIn at about.now (remark_is r)) }
{
    match about {
        About::Text(source) => expected_at(alloc, source.text(), at),
        About::Nothing => Ok(Remark::Nothing),
        About::Line { .. } => Ok(Remark::Nothing),
        About::Values { .. } => Ok(Remark::Nothing),
        About::File(_) => Ok(Remark::Nothing),
    }
}

fn remark_on(alloc: Global, stop: &Stop<'_>, about: &About<'_>) -> Result<Remark, AllocError>
    ensures { IfOk result (λ r. spec.HasRemark stop.now about.now (remark_is r)) }
{
    match stop {
        Stop::Refused(Refusal::Program(breach)) => remark_in(alloc, *breach, about),
        Stop::Refused(Refusal::Text(TextFault::Syntax(at))) => expected_in(alloc, *at, about),
        _ => Ok(Remark::Nothing),
    }
}

/// What there is to say of a refusal beside its line: where it is, and a sentence; of a token with which no program goes on (E4) also what
/// could stand there, and of a name which one was meant. The message says nothing where nothing is known beside the line, as of a text that
/// isn't at hand. The error is that memory was refused.
pub fn message_of(alloc: Global, stop: &Stop<'_>, about: &About<'_>) -> Result<Message, AllocError>
    // It is the message on this refusal: where it is and a sentence; of a name by the text's tree, of a token by the
    // kinds that could stand there.
    ensures { IfOk result (λ m. spec.IsMessageOf stop.now about.now (message_is m)) }
{
    let remark = remark_on(alloc, stop, about)?;
    stop_message(alloc, stop, about, &remark)
}

/// The name of the file that a refusal is about, and nothing where it is about none.
pub fn name_in<'a>(about: &'a About<'_>) -> &'a [u8]
    ensures { result.now ≡ spec.name_in about.now }
{
    match about {
        About::Text(source) => source.name.as_bytes(),
        About::Line { source, .. } => source.name.as_bytes(),
        About::Nothing => b"",
        About::Values { .. } => b"",
        About::File(_) => b"",
    }
}

/// All that this file holds.
pub fn bytes_in<'a>(about: &'a About<'_>) -> &'a [u8]
    ensures { result.now ≡ spec.bytes_in about.now }
{
    match about {
        About::Text(source) => source.bytes.as_slice(),
        About::Line { source, .. } => source.bytes.as_slice(),
        About::Nothing => b"",
        About::Values { .. } => b"",
        About::File(_) => b"",
    }
}

/// Writes a message on what a refusal is about, as text. The error is that the writer failed (E17).
pub(crate) fn write_message_about<W: Out>(
    out: &mut W,
    about: &About<'_>,
    message: &Message,
) -> Result<(), WriteFault>
    ensures written { Writes (W.Out.state out.old) (W.Out.state out.new) (spec.text_about about.now (message_is message.now)) result }
{
    write_message(out, name_in(about), bytes_in(about), message)
}

// The message, and behind it what is said of a comment that begins as a size line and is none.
fn write_with_note<W: Out>(
    out: &mut W,
    about: &About<'_>,
    message: &Message,
) -> Result<(), WriteFault>
    ensures written { Writes (W.Out.state out.old) (W.Out.state out.new)
        (spec.text_about about.now (message_is message.now) ++ note_about about.now) result }
{
    write_message_about(out, about, message)?;
    write_note_about(out, about)
}

/// Writes what a reader needs behind the line of a refusal: the place with its line and a caret, where it has one, and the sentences of its
/// message (`message_of`), or a sentence that says that memory for this was refused. Nothing is written where nothing is known beside the
/// line. Behind the message stands what is said of a comment of the program that begins as a size line and is none. The error is that the
/// writer failed (E17).
pub fn write_stop_diagnosis<W: Out>(
    alloc: Global,
    out: &mut W,
    stop: &Stop<'_>,
    about: &About<'_>,
) -> Result<(), WriteFault>
    // Exactly the message is written, with its line, and a comment that is no size line, or that memory was refused, or
    // a beginning and then a failure.
    ensures written { (text : List ℕ) × spec.IsSaid stop.now about.now text
        × Writes (W.Out.state out.old) (W.Out.state out.new) text result }
{
    match message_of(alloc, stop, about) {
        Ok(message) => write_with_note(out, about, &message),
        Err(AllocError) => out.write_all(b"memory was refused for what there is to say of it\n"),
    }
}
