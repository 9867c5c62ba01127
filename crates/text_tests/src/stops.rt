//! What is written where the program stops without an outcome: each reason with its line, which is its own text too.

use pram_check::{Breach, Cause, CheckFault, Limit, Spot};
use pram_syntax::{Buffer, OutFailed, TextFault, WriteFault};
use program_texts::{Refusal, Stop, write_stop};
use sized_texts::Reason;
use std::alloc::{AllocError, Global};
use std::test::Fail;

const TEXTS: [(TextFault, &str); 6] = [
    (TextFault::NotAscii(7), "refused E1 NotAscii at 7\n"),
    (TextFault::TextTooLong, "refused E2 TextTooLong\n"),
    (TextFault::BadToken(0), "refused E3 BadToken at 0\n"),
    (
        TextFault::Syntax(4294967295),
        "refused E4 Syntax at 4294967295\n",
    ),
    (TextFault::TooDeep(96), "refused E5 TooDeep at 96\n"),
    (TextFault::OutOfMemory, "refused E16 OutOfMemory\n"),
];

const CAUSES: [(Cause, &str); 9] = [
    (Cause::UnknownName, "refused E6 UnknownName at 57\n"),
    (Cause::DoubleName, "refused E7 DoubleName at 57\n"),
    (Cause::WrongKind, "refused E8 WrongKind at 57\n"),
    (
        Cause::AssignedLoopVariable,
        "refused E9 AssignedLoopVariable at 57\n",
    ),
    (Cause::Limit(Limit::Cells), "refused E10 Limit cells\n"),
    (Cause::Limit(Limit::Procs), "refused E10 Limit procs\n"),
    (Cause::Limit(Limit::Bounds), "refused E10 Limit bounds\n"),
    (Cause::Limit(Limit::Reads), "refused E10 Limit reads\n"),
    (Cause::Limit(Limit::Tokens), "refused E10 Limit tokens\n"),
];

// Whether that line is written, and the reason's own text is the line but for its first word and its
// end.
fn is_written(alloc: Global, stop: &Stop<'_>, line: &str) -> Result<bool, AllocError> {
    let mut written = Buffer::new(alloc);
    let told = format!(in alloc; "refused {stop}\n")?;
    let is_whole = write_stop(&mut written, stop).is_ok();
    Ok(is_whole && written.bytes() == line.as_bytes() && told.as_bytes() == line.as_bytes())
}

// Whether that line is written of a fault of a text, and is its own text.
fn is_of_text(alloc: Global, fault: TextFault, line: &str) -> Result<bool, AllocError> {
    let told = format!(in alloc; "refused {fault}\n")?;
    let stop = Stop::Refused(Refusal::Text(fault));
    Ok(is_written(alloc, &stop, line)? && told.as_bytes() == line.as_bytes())
}

// The same of what is wrong with a program.
fn is_of_program(alloc: Global, cause: Cause, line: &str) -> Result<bool, AllocError> {
    let spot = Spot::Offset(57);
    let breach = Breach { spot, cause };
    let fault = CheckFault::Refused(breach);
    let told = format!(in alloc; "refused {fault}\n")?;
    let stop = Stop::Refused(Refusal::Program(breach));
    Ok(is_written(alloc, &stop, line)? && told.as_bytes() == line.as_bytes())
}

#[test]
fn a_refusal_is_written_by_its_text(rt: HostRuntime) -> Result<(), Fail> {
    for (fault, line) in &TEXTS {
        assert!(&rt; is_of_text(rt.alloc(), *fault, line)?);
    }
    for (cause, line) in &CAUSES {
        assert!(&rt; is_of_program(rt.alloc(), *cause, line)?);
    }
    Ok(())
}

// Whether the line of each refusal of a run is written.
fn runs_are_refused(alloc: Global) -> Result<bool, AllocError> {
    let long = Stop::Refused(Refusal::InputTooLong);
    let map = Stop::Refused(Refusal::BadMap);
    let workers = Stop::Refused(Refusal::BadWorkers);
    let memory = Stop::Refused(Refusal::OutOfMemory);
    let reserve = Stop::Refused(Refusal::OutOfReserve);
    Ok(
        is_written(alloc, &long, "refused E11 InputTooLong\n")?
            && is_written(alloc, &map, "refused E12 BadMap\n")?
            && is_written(alloc, &workers, "refused E13 BadWorkers\n")?
            && is_written(alloc, &memory, "refused E16 OutOfMemory\n")?
            && is_written(alloc, &reserve, "refused E18 OutOfReserve\n")?,
    )
}

// Whether the line of each other refusal of a file is.
fn files_are_refused(alloc: Global) -> Result<bool, AllocError> {
    let code = Stop::NotVerified(0, "exchange");
    let listing = Stop::BadListing(24);
    let size = Stop::BadSize(48, Reason::UnknownName);
    Ok(
        is_written(alloc, &code, "refused E14 NotVerified at 0 exchange\n")?
            && is_written(alloc, &listing, "refused E15 BadListing at 24\n")?
            && is_written(alloc, &size, "refused E19 BadSize at 48 unknown\n")?,
    )
}

// Whether that of each word of a call is, and of a writer.
fn words_are_refused(alloc: Global) -> Result<bool, AllocError> {
    let number = Stop::Number("1x");
    let file = Stop::Unreadable("nowhere");
    let full = Stop::WriteFailed;
    let failed = format!(in alloc; "{} {}", WriteFault, OutFailed)?;
    Ok(
        is_written(alloc, &number, "refused P1 1x\n")?
            && is_written(alloc, &file, "refused P2 nowhere\n")?
            && is_written(alloc, &full, "refused E17 WriteFailed\n")?
            && failed.as_bytes() == b"E17 WriteFailed E17 WriteFailed".as_slice(),
    )
}

// Whether the words of the command line's parser are written as they are.
fn words_are_written(alloc: Global) -> Result<bool, AllocError> {
    let line = b"error: a word\n";
    let words = Stop::Words(String::from_str(alloc, "error: a word\n")?);
    let mut written = Buffer::new(alloc);
    let is_whole = write_stop(&mut written, &words).is_ok();
    let told = format!(in alloc; "{words}")?;
    Ok(is_whole && written.bytes() == line.as_slice() && told.as_bytes() == line.as_slice())
}

#[test]
fn any_other_stop_is_written_by_its_text(rt: HostRuntime) -> Result<(), Fail> {
    assert!(&rt; runs_are_refused(rt.alloc())?);
    assert!(&rt; files_are_refused(rt.alloc())?);
    assert!(&rt; words_are_refused(rt.alloc())?);
    assert!(&rt; words_are_written(rt.alloc())?);
    Ok(())
}
