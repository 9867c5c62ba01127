//! The message about a token with which no program goes on, or about the end of a text whose program goes on.

ghost use Rattle.std.specs.Prelude.{◌≡◌, IfOk, codes, map};
ghost use Rattle.pram_printer.specs.Spelling.{opening_text as opening_word};
ghost use Rattle.help.specs.ChoiceTexts.{choice_text};
ghost use Rattle.help.specs.Messages.{message_is};
ghost use Rattle.diagnoses.specs.Places.{token_at as token_in};
ghost use Rattle.diagnoses.specs.Remarks.{remark_is};
ghost use Rattle.diagnoses.specs.Sources.{text_in};
ghost use Rattle.diagnoses.specs.SyntaxFaults as spec;

use crate::parts::{at_byte, placed};
use crate::places::token_at;
use crate::remark::Remark;
use crate::source::Source;
use crate::syntax_faults::{
    write_bad_more, write_bad_sentence, write_behind_end, write_missing_kind, write_named_habit,
    write_open_sentence, write_taken_sentence,
};
use help::{Choice, Habit, Hint, Message, Other, write_choice};
use pram_printer::opening_text;
use std::alloc::{AllocError, Global};
use text_out::{Buffer, WriteFault};
use text_places::place_of;

// The line of the file on which a place stands.
fn line_in(source: &Source<'_>, at: u32) -> usize
    ensures { result ≡ spec.line_in source.now at }
{
    place_of(source.bytes.as_slice(), source.origin(at) as usize).line
}

fn bad_sentence(
    alloc: Global,
    source: &Source<'_>,
    at: u32,
    remark: &Remark,
) -> Result<Message, AllocError>
    ensures { IfOk result (λ m. message_is m ≡ spec.placed source.now at
        (spec.bad_sentence (text_in source.now) at (remark_is remark.now))) }
{
    let mut out = Buffer::new(alloc);
    match write_bad_sentence(&mut out, source.text(), at as usize, remark) {
        Ok(()) => placed(alloc, source, at, out.bytes()),
        Err(WriteFault) => Err(AllocError),
    }
}

fn bad_more(alloc: Global, text: &[u8], at: u32, remark: &Remark) -> Result<Vec<u8>, AllocError>
    ensures { IfOk result (λ more. more.items ≡ spec.bad_more text.now at (remark_is remark.now)) }
{
    let mut out = Buffer::new(alloc);
    match write_bad_more(&mut out, text, at as usize, remark) {
        Ok(()) => Vec::from_slice(alloc, out.bytes()),
        Err(WriteFault) => Err(AllocError),
    }
}

// What could stand there.
fn plainly(
    alloc: Global,
    source: &Source<'_>,
    at: u32,
    remark: &Remark,
) -> Result<Message, AllocError>
    ensures { IfOk result (λ m. message_is m ≡ spec.plainly source.now at (remark_is remark.now)) }
{
    let more = bad_more(alloc, source.text(), at, remark)?;
    let message = bad_sentence(alloc, source, at, remark)?;
    Ok(message.with_more(more))
}

// A token that is something else in another language.
fn of_habit(
    alloc: Global,
    source: &Source<'_>,
    at: u32,
    habit: Habit,
) -> Result<Message, AllocError>
    ensures { IfOk result (λ m. message_is m ≡ spec.of_habit source.now at habit) }
{
    let mut out = Buffer::new(alloc);
    match write_named_habit(&mut out, token_at(source.text(), at as usize), habit) {
        Ok(()) => placed(alloc, source, at, out.bytes()),
        Err(WriteFault) => Err(AllocError),
    }
}

// Where the token ends that begins at a place.
fn end_in(source: &Source<'_>, at: u32) -> usize
    ensures { result ≡ spec.end_in source.now at }
{
    at as usize + token_at(source.text(), at as usize).len()
}

// A token that is missing behind another one.
fn of_missing(
    alloc: Global,
    source: &Source<'_>,
    choice: Choice,
    behind: u32,
) -> Result<Message, AllocError>
    ensures { IfOk result (λ m. message_is m ≡ spec.of_missing source.now choice behind) }
{
    let mut out = Buffer::new(alloc);
    match write_missing_kind(&mut out, choice) {
        Ok(()) => at_byte(
            alloc,
            source.far_origin(end_in(source, behind)),
            out.bytes(),
        ),
        Err(WriteFault) => Err(AllocError),
    }
}

fn open_sentence(
    alloc: Global,
    source: &Source<'_>,
    at: u32,
    word: &[u8],
    begins: u32,
) -> Result<Message, AllocError>
    ensures { IfOk result (λ m. message_is m ≡ spec.placed source.now at
        (spec.open_sentence word.now (spec.line_in source.now begins))) }
{
    let mut out = Buffer::new(alloc);
    match write_open_sentence(&mut out, word, line_in(source, begins)) {
        Ok(()) => placed(alloc, source, at, out.bytes()),
        Err(WriteFault) => Err(AllocError),
    }
}

// The end of the text within a block.
fn of_open(
    alloc: Global,
    source: &Source<'_>,
    at: u32,
    word: &[u8],
    begins: u32,
) -> Result<Message, AllocError>
    ensures { IfOk result (λ m. message_is m ≡ spec.of_open source.now at word.now begins) }
{
    let message = open_sentence(alloc, source, at, word, begins)?;
    Ok(message.with_other(Other::Begins(source.origin(begins) as usize)))
}

fn taken_sentence(
    alloc: Global,
    source: &Source<'_>,
    at: u32,
    word: &[u8],
    begins: u32,
    by: u32,
) -> Result<Message, AllocError>
    ensures { IfOk result (λ m. message_is m ≡ spec.placed source.now at
        (spec.taken_sentence word.now (spec.line_in source.now begins) (spec.line_in source.now by))) }
{
    let mut out = Buffer::new(alloc);
    match write_taken_sentence(&mut out, word, line_in(source, begins), line_in(source, by)) {
        Ok(()) => placed(alloc, source, at, out.bytes()),
        Err(WriteFault) => Err(AllocError),
    }
}

// The end of the text within the program, whose last `end` ends a block.
fn of_taken(
    alloc: Global,
    source: &Source<'_>,
    at: u32,
    word: &[u8],
    begins: u32,
    by: u32,
) -> Result<Message, AllocError>
    ensures { IfOk result (λ m. message_is m ≡ spec.of_taken source.now at word.now begins by) }
{
    let message = taken_sentence(alloc, source, at, word, begins, by)?;
    Ok(message.with_other(Other::Begins(source.origin(begins) as usize)))
}

fn ended_sentence(
    alloc: Global,
    source: &Source<'_>,
    at: u32,
    ends: u32,
) -> Result<Message, AllocError>
    ensures { IfOk result (λ m. message_is m ≡ spec.placed source.now at
        (spec.behind_end (token_in (text_in source.now) at) (spec.line_in source.now ends))) }
{
    let mut out = Buffer::new(alloc);
    match write_behind_end(
        &mut out,
        token_at(source.text(), at as usize),
        line_in(source, ends),
    ) {
        Ok(()) => placed(alloc, source, at, out.bytes()),
        Err(WriteFault) => Err(AllocError),
    }
}

// A token behind the whole program.
fn of_ended(alloc: Global, source: &Source<'_>, at: u32, ends: u32) -> Result<Message, AllocError>
    ensures { IfOk result (λ m. message_is m ≡ spec.of_ended source.now at ends) }
{
    let message = ended_sentence(alloc, source, at, ends)?;
    Ok(message.with_other(Other::Ends(source.origin(ends) as usize)))
}

fn hint_of(remark: &Remark) -> Hint
    ensures { result ≡ spec.hint_of (remark_is remark.now) }
{
    match remark {
        Remark::Expected(_, hint) => *hint,
        Remark::Nothing => Hint::Nothing,
        Remark::Nearest(_) => Hint::Nothing,
        Remark::Declared(_, _) => Hint::Nothing,
        Remark::Misplaced(_, _, _) => Hint::Nothing,
        Remark::Elsewhere(_, _) => Hint::Nothing,
        Remark::Undeclared(_, _) => Hint::Nothing,
    }
}

fn hinted(
    alloc: Global,
    source: &Source<'_>,
    at: u32,
    remark: &Remark,
    hint: Hint,
) -> Result<Message, AllocError>
    ensures { IfOk result (λ m. message_is m ≡ spec.hinted source.now at (remark_is remark.now) hint) }
{
    match hint {
        Hint::Nothing => plainly(alloc, source, at, remark),
        Hint::Habit { habit, at } => of_habit(alloc, source, at, habit),
        Hint::Missing { choice, behind } => of_missing(alloc, source, choice, behind),
        Hint::Open {
            opening,
            at: begins,
        } => of_open(alloc, source, at, opening_text(opening), begins),
        Hint::OpenProgram { at: begins } => of_open(alloc, source, at, b"begin", begins),
        Hint::Taken {
            opening,
            at: begins,
            by,
        } => of_taken(alloc, source, at, opening_text(opening), begins, by),
        Hint::Ended { at: ends } => of_ended(alloc, source, at, ends),
    }
}

// A kind of tokens as it is told.
fn choice_bytes(alloc: Global, choice: Choice) -> Result<Vec<u8>, AllocError>
    ensures { IfOk result (λ text. text.items ≡ choice_text choice) }
{
    let mut out = Buffer::new(alloc);
    match write_choice(&mut out, choice) {
        Ok(()) => Vec::from_slice(alloc, out.bytes()),
        Err(WriteFault) => Err(AllocError),
    }
}

fn choice_texts(alloc: Global, found: &[Choice]) -> Result<Vec<Vec<u8>>, AllocError>
    ensures { IfOk result (λ texts. map (λ v. v.items) texts.items ≡ map choice_text found.now) }
{
    let mut texts = Vec::new(alloc);
    for choice in found {
        texts.push(choice_bytes(alloc, *choice)?)?;
    }
    Ok(texts)
}

// What could stand there, each kind as a text.
fn expected_texts(alloc: Global, remark: &Remark) -> Result<Vec<Vec<u8>>, AllocError>
    ensures { IfOk result (λ texts. map (λ v. v.items) texts.items ≡ spec.expected_texts (remark_is remark.now)) }
{
    match remark {
        Remark::Expected(found, _) => choice_texts(alloc, found),
        Remark::Nothing => Ok(Vec::new(alloc)),
        Remark::Nearest(_) => Ok(Vec::new(alloc)),
        Remark::Declared(_, _) => Ok(Vec::new(alloc)),
        Remark::Misplaced(_, _, _) => Ok(Vec::new(alloc)),
        Remark::Elsewhere(_, _) => Ok(Vec::new(alloc)),
        Remark::Undeclared(_, _) => Ok(Vec::new(alloc)),
    }
}

/// What is said of a token with which no program goes on (E4), or of the end of the text: what the remark hints at, with a second place if
/// it has one, and else what could stand there. The error is that memory was refused.
pub(crate) fn syntax_message(
    alloc: Global,
    source: &Source<'_>,
    at: u32,
    remark: &Remark,
) -> Result<Message, AllocError>
    ensures { IfOk result (λ m. message_is m ≡ spec.syntax_message source.now at (remark_is remark.now)) }
{
    let message = hinted(alloc, source, at, remark, hint_of(remark))?;
    let expected = expected_texts(alloc, remark)?;
    Ok(message.with_expected(expected))
}
