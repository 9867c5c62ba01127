//! Why the program stops without an outcome, and how it says so.

ghost use Rattle.std.specs.Prelude.{◌≡◌};
ghost use Rattle.text_out.specs.Out.{Writes};
ghost use Rattle.program_texts.specs.Stopped as stopped;
ghost use Rattle.program_texts.specs.Numbers as numbers;
ghost use Rattle.program_texts.specs.StoppedFields.{name_end, named_front, named_line, reason_line, reason_text, stop_text};
ghost use Rattle.program_texts.specs.declared.stop.Stop.TheVariants.{Refused, WriteFailed};
ghost use Rattle.program_texts.specs.declared.from_text.Refusal.TheVariants.{OutOfMemory};

use crate::from_text::Refusal;
use crate::number::Number;
use itoa::Buffer;
use pram_check::{Breach, Cause, Limit, Spot};
use pram_trees::TextFault;
use sized_texts::{Reason, reason_word};
use std::alloc::AllocError;
use std::fmt;
use text_out::{Out, WriteFault};
use text_places::write_escaped;
use thiserror::Error;

/// Why a call of the program comes to no end of its own. Its text is what `write_stop` writes, but
/// for the word `refused` and the end of the line, and with control bytes of a word or a name as they are.
#[derive(Debug, Drop, Error)]
pub enum Stop<'a> {
    /// P1, in the words of the parser of command lines.
    #[error("{0}")]
    Words(String),
    /// P1: a number of an option that isn't one.
    #[error("P1 {0}")]
    Number(&'a str),
    /// P2: a file that can't be read.
    #[error("P2 {0}")]
    Unreadable(&'a str),
    /// E1 to E13 and E16.
    #[error(transparent)]
    Refused(Refusal),
    /// E14: code that isn't well formed, by the instruction that can't be met and the word for the reason.
    #[error("E14 NotVerified at {0} {1}")]
    NotVerified(u32, &'a str),
    /// E15: a text that is no listing, by the offset of its first wrong line.
    #[error("E15 BadListing at {0}")]
    BadListing(u32),
    /// E17: standard output failed.
    #[error("E17 WriteFailed")]
    WriteFailed,
    /// E19: a text with sizes that has no expansion, by the offset of what is wrong, and why.
    #[error("E19 BadSize at {0} {1}")]
    BadSize(u32, Reason),
}

impl<'a> From<Refusal> for Stop<'a> {
    ghost from_gives = { λ refusal stop. stop ≡ Refused refusal };

    fn from(refusal: Refusal) -> Stop<'a> {
        Stop::Refused(refusal)
    }
}

impl<'a> From<AllocError> for Stop<'a> {
    ghost from_gives = { λ _ e. e ≡ Refused OutOfMemory };

    fn from(_e: AllocError) -> Stop<'a> {
        Stop::Refused(Refusal::OutOfMemory)
    }
}

impl<'a> From<WriteFault> for Stop<'a> {
    ghost from_gives = { λ _ e. e ≡ WriteFailed };

    fn from(_e: WriteFault) -> Stop<'a> {
        Stop::WriteFailed
    }
}

/// Writes the line that says why, or the text of the parser of command lines.
pub fn write_stop<W: Out>(out: &mut W, stop: &Stop<'_>) -> Result<(), WriteFault>
    // A refusal's line is written with its number, its name and its place, if it has one; or a beginning of it, and
    // then the writer failed.
    ensures written { Writes (W.Out.state out.old) (W.Out.state out.new) (stop_text stop.now) result }
{
    match stop {
        Stop::Words(text) => out.write_all(text.as_bytes()),
        Stop::Number(word) => write_named(out, Number::CommandLine, word.as_bytes()),
        Stop::Unreadable(name) => write_named(out, Number::UnreadableFile, name.as_bytes()),
        Stop::Refused(refusal) => write_refusal(out, *refusal),
        Stop::NotVerified(at, reason) => {
            write_reason(out, Number::NotVerified, *at, reason.as_bytes())
        }
        Stop::BadListing(at) => write_refused(out, Number::BadListing, None, Some(*at)),
        Stop::WriteFailed => write_refused(out, Number::WriteFailed, None, None),
        Stop::BadSize(at, reason) => {
            write_reason(out, Number::BadSize, *at, reason_word(*reason).as_bytes())
        }
    }
}

fn write_name<W: Out>(out: &mut W, name: &[u8]) -> Result<(), WriteFault>
    ensures written { Writes (W.Out.state out.old) (W.Out.state out.new) (name_end name.now) result }
{
    write_escaped(out, name)?;
    out.write_all(b"\n")
}

fn write_named_front<W: Out>(out: &mut W, number: Number) -> Result<(), WriteFault>
    ensures written { Writes (W.Out.state out.old) (W.Out.state out.new) (named_front number) result }
{
    out.write_parts(&[b"refused ", number.code().as_bytes(), b" "])
}

// `refused P2 sum.pram`, on one line whatever stands in the name.
fn write_named<W: Out>(out: &mut W, number: Number, name: &[u8]) -> Result<(), WriteFault>
    ensures written { Writes (W.Out.state out.old) (W.Out.state out.new) (named_line number name.now) result }
{
    write_named_front(out, number)?;
    write_name(out, name)
}

// `refused E6 UnknownName`, or `refused E10 Limit cells`.
fn write_front<W: Out>(
    out: &mut W,
    number: Number,
    detail: &Option<Limit>,
) -> Result<(), WriteFault>
    ensures written { Writes (W.Out.state out.old) (W.Out.state out.new)
        (stopped.refused_front number (stopped.detail_text detail.now)) result }
{
    let (code, name) = (number.code().as_bytes(), number.name().as_bytes());
    match detail {
        None => out.write_parts(&[b"refused ", code, b" ", name]),
        Some(limit) => {
            let word = limit_word(*limit).as_bytes();
            out.write_parts(&[b"refused ", code, b" ", name, b" ", word])
        }
    }
}

fn write_place<W: Out>(out: &mut W, place: Option<u32>) -> Result<(), WriteFault>
    ensures written { Writes (W.Out.state out.old) (W.Out.state out.new) (stopped.place_text place) result }
{
    match place {
        None => out.write_all(b"\n"),
        Some(at) => {
            let mut digits = Buffer::new();
            out.write_parts(&[b" at ", digits.format(at).as_bytes(), b"\n"])
        }
    }
}

// ` at 12 unknown`.
fn write_reason_text<W: Out>(out: &mut W, at: u32, reason: &[u8]) -> Result<(), WriteFault>
    ensures written { Writes (W.Out.state out.old) (W.Out.state out.new) (reason_text at reason.now) result }
{
    let mut digits = Buffer::new();
    out.write_parts(&[b" at ", digits.format(at).as_bytes(), b" ", reason, b"\n"])
}

// `refused E14 NotVerified at 0 exchange`, or `refused E19 BadSize at 12 unknown`.
fn write_reason<W: Out>(
    out: &mut W,
    number: Number,
    at: u32,
    reason: &[u8],
) -> Result<(), WriteFault>
    ensures written { Writes (W.Out.state out.old) (W.Out.state out.new) (reason_line number at reason.now) result }
{
    write_front(out, number, &None)?;
    write_reason_text(out, at, reason)
}

fn write_refusal<W: Out>(out: &mut W, refusal: Refusal) -> Result<(), WriteFault>
    ensures written { Writes (W.Out.state out.old) (W.Out.state out.new) (stopped.refused_line (numbers.refusal_number refusal)
        (stopped.detail_text (stopped.limit_of refusal)) (stopped.refusal_place refusal)) result }
{
    write_refused(out, refusal.number(), refusal.limit(), place_of(refusal))
}

// `refused E6 UnknownName at 57`, or the same without a place.
fn write_refused<W: Out>(
    out: &mut W,
    number: Number,
    limit: Option<Limit>,
    place: Option<u32>,
) -> Result<(), WriteFault>
    ensures written { Writes (W.Out.state out.old) (W.Out.state out.new)
        (stopped.refused_line number (stopped.detail_text limit) place) result }
{
    write_front(out, number, &limit)?;
    write_place(out, place)
}

// The words by which a refusal is written are its text.
impl fmt::Display for Refusal {
    fn fmt<W: fmt::Write>(&self, f: &mut fmt::Formatter<W>) -> fmt::Result {
        let number = self.number();
        write!(f, "{} {}", number.code(), number.name())?;
        if let Some(limit) = self.limit() {
            write!(f, " {}", limit_word(limit))?;
        }
        if let Some(at) = place_of(*self) {
            write!(f, " at {at}")?;
        }
        Ok(())
    }
}

impl std::error::Error for Refusal {}

// The offset of a refusal, where it has one.
fn place_of(refusal: Refusal) -> Option<u32>
    ensures { result ≡ stopped.refusal_place refusal }
{
    match refusal {
        Refusal::Text(fault) => text_place(fault),
        Refusal::Program(breach) => breach_place(breach),
        Refusal::InputTooLong
        | Refusal::BadMap
        | Refusal::BadWorkers
        | Refusal::OutOfMemory
        | Refusal::OutOfReserve => None,
    }
}

fn text_place(fault: TextFault) -> Option<u32>
    ensures { result ≡ stopped.text_place fault }
{
    match fault {
        TextFault::NotAscii(at)
        | TextFault::BadToken(at)
        | TextFault::Syntax(at)
        | TextFault::TooDeep(at) => Some(at),
        TextFault::TextTooLong | TextFault::OutOfMemory => None,
    }
}

fn breach_place(breach: Breach) -> Option<u32>
    ensures { result ≡ stopped.cause_place breach.spot breach.cause }
{
    match (breach.cause, breach.spot) {
        (Cause::Limit(_), _) => None,
        (_, Spot::Offset(at)) => Some(at),
        (_, Spot::TextEnd) => None,
    }
}

/// The word of a limit, as `cells`.
pub fn limit_word(limit: Limit) -> &'static str
    // It is the word by which the limit is told.
    ensures { result.now ≡ stopped.limit_word limit }
{
    match limit {
        Limit::Cells => "cells",
        Limit::Procs => "procs",
        Limit::Bounds => "bounds",
        Limit::Reads => "reads",
        Limit::Tokens => "tokens",
    }
}
