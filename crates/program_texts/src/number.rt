//! Refusals by their numbers and names.

ghost use Rattle.std.specs.Prelude.{◌≡◌};
ghost use Rattle.program_texts.specs.Numbers as spec;
ghost use Rattle.program_texts.specs.Stopped as stopped;

use crate::from_text::Refusal;
use crate::stop::Stop;
use pram_check::{Breach, Cause, Limit};
use pram_trees::TextFault;

/// A refusal, whatever it is of.
#[derive(Clone, Copy, Debug, Drop, PartialEq, Eq)]
pub enum Number {
    NotAscii,
    TextTooLong,
    BadToken,
    Syntax,
    TooDeep,
    UnknownName,
    DoubleName,
    WrongKind,
    AssignedLoopVariable,
    Limit,
    InputTooLong,
    BadMap,
    BadWorkers,
    NotVerified,
    BadListing,
    OutOfMemory,
    WriteFailed,
    OutOfReserve,
    BadSize,
    CommandLine,
    UnreadableFile,
}

impl Number {
    /// The number, as `E6`.
    pub fn code(self) -> &'static str
        // It is the number by which the refusal is told.
        ensures code { result.now ≡ spec.code self }
    {
        match self {
            Number::NotAscii => "E1",
            Number::TextTooLong => "E2",
            Number::BadToken => "E3",
            Number::Syntax => "E4",
            Number::TooDeep => "E5",
            Number::UnknownName => "E6",
            Number::DoubleName => "E7",
            Number::WrongKind => "E8",
            Number::AssignedLoopVariable => "E9",
            Number::Limit => "E10",
            Number::InputTooLong => "E11",
            Number::BadMap => "E12",
            Number::BadWorkers => "E13",
            Number::NotVerified => "E14",
            Number::BadListing => "E15",
            Number::OutOfMemory => "E16",
            Number::WriteFailed => "E17",
            Number::OutOfReserve => "E18",
            Number::BadSize => "E19",
            Number::CommandLine => "P1",
            Number::UnreadableFile => "P2",
        }
    }

    /// The name, as `UnknownName`.
    pub fn name(self) -> &'static str
        // It is the name by which the refusal is told.
        ensures name { result.now ≡ spec.name self }
    {
        match self {
            Number::NotAscii => "NotAscii",
            Number::TextTooLong => "TextTooLong",
            Number::BadToken => "BadToken",
            Number::Syntax => "Syntax",
            Number::TooDeep => "TooDeep",
            Number::UnknownName => "UnknownName",
            Number::DoubleName => "DoubleName",
            Number::WrongKind => "WrongKind",
            Number::AssignedLoopVariable => "AssignedLoopVariable",
            Number::Limit => "Limit",
            Number::InputTooLong => "InputTooLong",
            Number::BadMap => "BadMap",
            Number::BadWorkers => "BadWorkers",
            Number::NotVerified => "NotVerified",
            Number::BadListing => "BadListing",
            Number::OutOfMemory => "OutOfMemory",
            Number::WriteFailed => "WriteFailed",
            Number::OutOfReserve => "OutOfReserve",
            Number::BadSize => "BadSize",
            Number::CommandLine => "CommandLine",
            Number::UnreadableFile => "UnreadableFile",
        }
    }
}

fn text_number(fault: TextFault) -> Number
    ensures { result ≡ spec.text_number fault }
{
    match fault {
        TextFault::NotAscii(_) => Number::NotAscii,
        TextFault::TextTooLong => Number::TextTooLong,
        TextFault::BadToken(_) => Number::BadToken,
        TextFault::Syntax(_) => Number::Syntax,
        TextFault::TooDeep(_) => Number::TooDeep,
        TextFault::OutOfMemory => Number::OutOfMemory,
    }
}

fn breach_number(breach: Breach) -> Number
    ensures { result ≡ spec.cause_number breach.cause }
{
    match breach.cause {
        Cause::UnknownName => Number::UnknownName,
        Cause::DoubleName => Number::DoubleName,
        Cause::WrongKind => Number::WrongKind,
        Cause::AssignedLoopVariable => Number::AssignedLoopVariable,
        Cause::Limit(_) => Number::Limit,
    }
}

impl Refusal {
    /// Which refusal it is.
    pub fn number(self) -> Number
        // It is the refusal's number.
        ensures number { result ≡ spec.refusal_number self }
    {
        match self {
            Refusal::Text(fault) => text_number(fault),
            Refusal::Program(breach) => breach_number(breach),
            Refusal::InputTooLong => Number::InputTooLong,
            Refusal::BadMap => Number::BadMap,
            Refusal::BadWorkers => Number::BadWorkers,
            Refusal::OutOfMemory => Number::OutOfMemory,
            Refusal::OutOfReserve => Number::OutOfReserve,
        }
    }
}

impl Refusal {
    /// The limit that a program is over, where it is refused for that.
    pub fn limit(self) -> Option<Limit>
        // It is the limit that the program is over, and none of any other refusal.
        ensures limit { result ≡ stopped.limit_of self }
    {
        match self {
            Refusal::Program(breach) => limit_in(breach.cause),
            Refusal::Text(_)
            | Refusal::InputTooLong
            | Refusal::BadMap
            | Refusal::BadWorkers
            | Refusal::OutOfMemory
            | Refusal::OutOfReserve => None,
        }
    }
}

fn limit_in(cause: Cause) -> Option<Limit>
    ensures { result ≡ stopped.cause_limit cause }
{
    match cause {
        Cause::Limit(limit) => Some(limit),
        Cause::UnknownName | Cause::DoubleName | Cause::WrongKind | Cause::AssignedLoopVariable =>
            None,
    }
}

impl<'a> Stop<'a> {
    /// Which refusal it is.
    pub fn number(&self) -> Number
        // It is the number of what stops the call.
        ensures number { result ≡ spec.stop_number self.now }
    {
        match self {
            Stop::Words(_) => Number::CommandLine,
            Stop::Number(_) => Number::CommandLine,
            Stop::Unreadable(_) => Number::UnreadableFile,
            Stop::Refused(refusal) => refusal.number(),
            Stop::NotVerified(_, _) => Number::NotVerified,
            Stop::BadListing(_) => Number::BadListing,
            Stop::WriteFailed => Number::WriteFailed,
            Stop::BadSize(_, _) => Number::BadSize,
        }
    }
}
