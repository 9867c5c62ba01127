//! Refusals.

ghost use Rattle.std.specs.Prelude.{◌≡◌, ℕ, List, ◌∷◌, [], OnOk};
ghost use Rattle.json_texts.specs.Facts.{with_fields};
ghost use Rattle.json_texts.specs.Lines.{IsJson};
ghost use Rattle.json_texts.specs.Shown.{shown};
ghost use Rattle.program_texts.specs.Stopped as texts;
ghost use Rattle.json_texts.specs.RefusalFacts as spec;

use crate::Object;
use pram_check::{Limit, Spot};
use pram_trees::TextFault;
use program_texts::{Number, Refusal, Stop, limit_word};
use sized_texts::{Reason, reason_word};
use std::alloc::AllocError;
use text_places::place_of;

// The number and the name.
fn put_named(object: &mut Object, number: Number) -> Result<(), AllocError>
    ensures { OnOk result (shown object.new ≡ with_fields (spec.named number) (shown object.old)) }
{
    object.put_word("refused", number.code())?;
    object.put_word("name", number.name())
}

// The offset of a place, its line and its column.
fn put_offset(object: &mut Object, source: &[u8], offset: usize) -> Result<(), AllocError>
    ensures { OnOk result (shown object.new ≡ with_fields (spec.place_fields source.now (Some offset)) (shown object.old)) }
{
    let place = place_of(source, offset);
    object.put_count("offset", offset as u64)?;
    object.put_count("line", place.line as u64)?;
    object.put_count("column", place.column as u64)
}

fn put_place(object: &mut Object, source: &[u8], place: Option<usize>) -> Result<(), AllocError>
    ensures { OnOk result (shown object.new ≡ with_fields (spec.place_fields source.now place) (shown object.old)) }
{
    match place {
        None => Ok(()),
        Some(offset) => put_offset(object, source, offset),
    }
}

fn put_limit(object: &mut Object, limit: Option<Limit>) -> Result<(), AllocError>
    ensures { OnOk result (shown object.new ≡ with_fields (spec.limit_fields limit) (shown object.old)) }
{
    match limit {
        None => Ok(()),
        Some(limit) => object.put_word("limit", limit_word(limit)),
    }
}

fn put_reason(object: &mut Object, refusal: Refusal) -> Result<(), AllocError>
    ensures { OnOk result (shown object.new ≡ with_fields (spec.reason_fields refusal) (shown object.old)) }
{
    put_named(object, refusal.number())?;
    put_limit(object, refusal.limit())
}

fn text_place(fault: TextFault) -> Option<usize>
    ensures { result ≡ texts.text_place fault }
{
    match fault {
        TextFault::NotAscii(at)
        | TextFault::BadToken(at)
        | TextFault::Syntax(at)
        | TextFault::TooDeep(at) => Some(at as usize),
        TextFault::TextTooLong | TextFault::OutOfMemory => None,
    }
}

fn offset_of(source: &[u8], spot: Spot) -> usize
    ensures { result ≡ spec.offset_of source.now spot }
{
    match spot {
        Spot::Offset(at) => at as usize,
        Spot::TextEnd => source.len(),
    }
}

// Where a refusal stands that has a place.
fn told_place(source: &[u8], refusal: Refusal) -> Option<usize>
    ensures { result ≡ spec.told_place source.now refusal }
{
    match refusal {
        Refusal::Text(fault) => text_place(fault),
        Refusal::Program(breach) => Some(offset_of(source, breach.spot)),
        Refusal::InputTooLong => None,
        Refusal::BadMap => None,
        Refusal::BadWorkers => None,
        Refusal::OutOfMemory => None,
        Refusal::OutOfReserve => None,
    }
}

fn put_refusal(object: &mut Object, source: &[u8], refusal: Refusal) -> Result<(), AllocError>
    ensures { OnOk result (shown object.new ≡ with_fields (spec.stop_fields source.now (Stop.Refused refusal)) (shown object.old)) }
{
    put_reason(object, refusal)?;
    put_place(object, source, told_place(source, refusal))
}

fn put_unverified(object: &mut Object, at: u32, reason: &str) -> Result<(), AllocError>
    ensures { OnOk result (shown object.new ≡ with_fields (spec.unverified_fields at reason.now) (shown object.old)) }
{
    put_named(object, Number::NotVerified)?;
    object.put_count("instruction", u64::from(at))?;
    object.put_word("reason", reason)
}

fn put_bad_listing(object: &mut Object, source: &[u8], at: u32) -> Result<(), AllocError>
    ensures { OnOk result (shown object.new ≡ with_fields (spec.stop_fields source.now (Stop.BadListing at)) (shown object.old)) }
{
    put_named(object, Number::BadListing)?;
    put_offset(object, source, at as usize)
}

fn put_bad_size(
    object: &mut Object,
    source: &[u8],
    at: u32,
    reason: Reason,
) -> Result<(), AllocError>
    ensures { OnOk result (shown object.new ≡ with_fields (spec.size_fields source.now at reason) (shown object.old)) }
{
    put_named(object, Number::BadSize)?;
    object.put_word("reason", reason_word(reason))?;
    put_offset(object, source, at as usize)
}

// A word of the command line, or a file, that was refused.
fn put_about(object: &mut Object, number: Number, name: &str, word: &str) -> Result<(), AllocError>
    ensures { OnOk result (shown object.new ≡ with_fields (spec.about number name.now word.now) (shown object.old)) }
{
    object.put_word("refused", number.code())?;
    object.put_told(name, word.as_bytes())
}

// The words of the parser of command lines.
fn put_parsed(object: &mut Object, text: &String) -> Result<(), AllocError>
    ensures { OnOk result (shown object.new ≡ with_fields (spec.parsed text.now.bytes.items) (shown object.old)) }
{
    object.put_word("refused", Number::CommandLine.code())?;
    object.put_word("message", text.as_str())
}

/// Why a call stops.
pub(crate) fn put_stop(
    object: &mut Object,
    source: &[u8],
    stop: &Stop<'_>,
) -> Result<(), AllocError>
    ensures { OnOk result (shown object.new ≡ with_fields (spec.stop_fields source.now stop.now) (shown object.old)) }
{
    match stop {
        Stop::Words(message) => put_parsed(object, message),
        Stop::Number(word) => put_about(object, Number::CommandLine, "word", word),
        Stop::Unreadable(file) => put_about(object, Number::UnreadableFile, "file", file),
        Stop::Refused(refusal) => put_refusal(object, source, *refusal),
        Stop::NotVerified(at, reason) => put_unverified(object, *at, reason),
        Stop::BadListing(at) => put_bad_listing(object, source, *at),
        Stop::WriteFailed => put_named(object, Number::WriteFailed),
        Stop::BadSize(at, reason) => put_bad_size(object, source, *at, *reason),
    }
}

/// The line of a call that stops where memory was refused (E16). It takes no memory.
pub fn out_of_memory_line() -> &'static [u8]
    ensures json { (source : List ℕ) → IsJson (spec.stop_facts source (Stop.Refused Refusal.OutOfMemory) ∷ []) result.now }
{
    b"{\"name\":\"OutOfMemory\",\"refused\":\"E16\"}\n"
}
