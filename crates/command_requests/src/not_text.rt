//! Command lines that are no text.

ghost use Rattle.std.specs.Prelude.{◌≡◌, IfErr, Ok, map};
ghost use Rattle.std.specs.String.{string_bytes};
ghost use Rattle.command_requests.specs.Words.{AsksForVersion, IsOfWords};

use crate::reader::Reader;
use crate::request::Request;
use crate::version::asks_for_version;
use program_texts::Stop;
use std::alloc::{AllocError, Global};

/// Reads command lines of which a word isn't UTF-8: that is told of this word, where its bytes stand by their numbers.
#[derive(Clone, Copy, Debug)]
pub struct NotText<'w> {
    pub word: &'w str,
}

fn told(alloc: Global, word: &str) -> Result<String, AllocError> {
    let mut text = String::from_str(
        alloc,
        "error: invalid UTF-8 was detected in one or more arguments: ",
    )?;
    text.push_str(word)?;
    text.push_str("\n\nFor more information, try '--help'.\nMore: pramc explain\n")?;
    Ok(text)
}

impl<'w> Reader for NotText<'w> {
    fn read<'a>(&self, alloc: Global, words: &'a [String]) -> Result<Request<'a>, Stop<'a>> {
        if asks_for_version(words) {
            return Ok(Request::Version);
        }
        Err(Stop::Words(told(alloc, self.word)?))
    }
}
