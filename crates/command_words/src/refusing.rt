//! A command line that the parser doesn't match, in words.

ghost use Rattle.std.specs.Prelude.{IfErr};
ghost use Rattle.command_requests.specs.Words.{IsOfWords};

use crate::meant::{push_meant, unexpected};
use clap::error::ErrorKind;
use command_requests::Request;
use help::subject_of;
use program_texts::{Refusal, Stop};
use std::alloc::{AllocError, Global};
use text_places::escaped_name;

// How the parser's tip to write an option behind `--` begins. It would be the name of a file there.
const TIP: &str = "  tip: to pass ";

// How the parser's last line begins where it refuses words; its help ends with an example.
const ASIDE: &str = "For more information";

// A call's first word, if there is something to explain of it, as there is of each command.
fn explained(words: &[String]) -> &str {
    if let Some(word) = words.first() {
        if subject_of(word.as_str()).is_some() {
            return word.as_str();
        }
    }
    ""
}

// Says what to type to read more.
fn push_hint(text: &mut String, word: &str) -> Result<(), AllocError> {
    text.push_str("More: pramc explain")?;
    if !word.is_empty() {
        text.push(' ')?;
        text.push_str(word)?;
    }
    text.push('\n')?;
    Ok(())
}

// The parser's words, without that tip, with what is meant, and what to type to read more.
fn told(alloc: Global, words: &[String], error: &clap::Error) -> Result<String, AllocError> {
    let text = format!(in alloc; "{error}")?;
    let mut kept = String::new(alloc);
    let mut is_behind = false;
    for line in text.lines() {
        let is_tip = line.starts_with(TIP);
        // the empty line behind the tip goes with it
        if !is_tip && !(is_behind && line.is_empty()) {
            kept.push_str(line)?;
            kept.push('\n')?;
        }
        if let Some(word) = unexpected(line) {
            push_meant(alloc, &mut kept, words, word)?;
        }
        if line.starts_with(ASIDE) {
            push_hint(&mut kept, explained(words))?;
        }
        is_behind = is_tip;
    }
    Ok(kept)
}

// The first word that isn't told as it is, but the parser would write it so.
fn steering(alloc: Global, words: &[String]) -> Result<Option<&str>, AllocError> {
    for word in words {
        if escaped_name(alloc, word.as_bytes())?.len() != word.len() {
            return Ok(Some(word.as_str()));
        }
    }
    Ok(None)
}

// The words of the parser, where it refused the command line; of one that could end its lines or steer a terminal that word.
fn refused<'a>(alloc: Global, words: &'a [String], error: clap::Error) -> Stop<'a>
    ensures { IsOfWords result }
{
    if error.kind() == ErrorKind::OutOfMemory {
        return Stop::Refused(Refusal::OutOfMemory);
    }
    match steering(alloc, words) {
        Ok(None) => {}
        Ok(Some(word)) => return Stop::Number(word),
        Err(AllocError) => return Stop::Refused(Refusal::OutOfMemory),
    }
    match told(alloc, words, &error) {
        Ok(text) => Stop::Words(text),
        Err(AllocError) => Stop::Refused(Refusal::OutOfMemory),
    }
}

/// The request where the parser has found the version asked for among other words; else how it refused the command line.
pub(crate) fn unmatched<'a>(
    alloc: Global,
    words: &'a [String],
    error: clap::Error,
) -> Result<Request<'a>, Stop<'a>>
    ensures { IfErr result IsOfWords }
{
    if error.kind() == ErrorKind::DisplayVersion {
        return Ok(Request::Version);
    }
    Err(refused(alloc, words, error))
}
