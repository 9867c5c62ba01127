//! What is said of a subject.

ghost use Rattle.std.specs.Prelude.{◌≡◌};
ghost use Rattle.text_out.specs.Out.{Writes};
ghost use Rattle.help.specs.Explained as spec;
ghost use Rattle.help.specs.Explained.{explanation};

use crate::explained::commands::{CHECK, COST, EXPAND, EXPLAIN, FMT, MEANING, PLAN, RULES, STEPS};
use crate::explained::faults::{
    DIVIDE_BY_ZERO, OUT_OF_RANGE, OVERFLOW, READ_CONFLICT, TOO_WIDE, WRITE_CONFLICT,
};
use crate::explained::grades::GRADE;
use crate::explained::names::{
    ASSIGNED_LOOP_VARIABLE, DOUBLE_NAME, LIMIT, UNKNOWN_NAME, WRONG_KIND,
};
use crate::explained::options::OPTIONS;
use crate::explained::overviews::{EVERYTHING, LANGUAGE};
use crate::explained::runs::{
    BAD_LISTING, BAD_MAP, BAD_WORKERS, COMMAND_LINE, INPUT_TOO_LONG, NOT_VERIFIED, OUT_OF_MEMORY,
    OUT_OF_RESERVE, UNREADABLE_FILE, WRITE_FAILED,
};
use crate::explained::scopes::{ALWAYS, COMPARE, EXPLORE, EXPORT};
use crate::explained::subject::Subject;
use crate::explained::texts::{BAD_SIZE, BAD_TOKEN, NOT_ASCII, SYNTAX, TEXT_TOO_LONG, TOO_DEEP};
use crate::explained::workers::{EXEC, RUN, TRACE};
use pram_values::Kind;
use program_texts::Number;
use text_out::{Out, WriteFault};

fn refusal_explained(number: Number) -> &'static [u8]
    ensures { result.now ≡ spec.refusal_explained number }
{
    match number {
        Number::NotAscii => &NOT_ASCII,
        Number::TextTooLong => &TEXT_TOO_LONG,
        Number::BadToken => &BAD_TOKEN,
        Number::Syntax => &SYNTAX,
        Number::TooDeep => &TOO_DEEP,
        Number::UnknownName => &UNKNOWN_NAME,
        Number::DoubleName => &DOUBLE_NAME,
        Number::WrongKind => &WRONG_KIND,
        Number::AssignedLoopVariable => &ASSIGNED_LOOP_VARIABLE,
        Number::Limit => &LIMIT,
        Number::InputTooLong => &INPUT_TOO_LONG,
        Number::BadMap => &BAD_MAP,
        Number::BadWorkers => &BAD_WORKERS,
        Number::NotVerified => &NOT_VERIFIED,
        Number::BadListing => &BAD_LISTING,
        Number::OutOfMemory => &OUT_OF_MEMORY,
        Number::WriteFailed => &WRITE_FAILED,
        Number::OutOfReserve => &OUT_OF_RESERVE,
        Number::BadSize => &BAD_SIZE,
        Number::CommandLine => &COMMAND_LINE,
        Number::UnreadableFile => &UNREADABLE_FILE,
    }
}

fn fault_explained(kind: Kind) -> &'static [u8]
    ensures { result.now ≡ spec.fault_explained kind }
{
    match kind {
        Kind::Overflow => &OVERFLOW,
        Kind::DivideByZero => &DIVIDE_BY_ZERO,
        Kind::OutOfRange => &OUT_OF_RANGE,
        Kind::TooWide => &TOO_WIDE,
        Kind::ReadConflict => &READ_CONFLICT,
        Kind::WriteConflict => &WRITE_CONFLICT,
    }
}

fn explanation_of(subject: Subject) -> &'static [u8]
    ensures { result.now ≡ explanation subject }
{
    match subject {
        Subject::Refusal(number) => refusal_explained(number),
        Subject::Fault(kind) => fault_explained(kind),
        Subject::Check => &CHECK,
        Subject::Plan => &PLAN,
        Subject::Meaning => &MEANING,
        Subject::Cost => &COST,
        Subject::Steps => &STEPS,
        Subject::Rules => &RULES,
        Subject::Explore => &EXPLORE,
        Subject::Always => &ALWAYS,
        Subject::Compare => &COMPARE,
        Subject::Grade => &GRADE,
        Subject::Run => &RUN,
        Subject::Trace => &TRACE,
        Subject::Expand => &EXPAND,
        Subject::Fmt => &FMT,
        Subject::Export => &EXPORT,
        Subject::Exec => &EXEC,
        Subject::Explain => &EXPLAIN,
        Subject::Language => &LANGUAGE,
        Subject::Options => &OPTIONS,
        Subject::Everything => &EVERYTHING,
    }
}

/// Writes what there is to say of a subject: of a refusal or a fault what it is, something that has it, and the same mended; of a
/// command what it is for, an example, and its options. The error is that the writer failed (E17).
pub fn write_explanation<W: Out>(out: &mut W, subject: Subject) -> Result<(), WriteFault>
    // Exactly the text of the subject is written, or a beginning of it and then a failure.
    ensures written { Writes (W.Out.state out.old) (W.Out.state out.new) (explanation subject) result }
{
    out.write_all(explanation_of(subject))
}
