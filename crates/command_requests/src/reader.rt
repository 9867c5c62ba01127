//! Who reads the words of a call.

ghost use Rattle.std.specs.Prelude.{◌≡◌, IfErr, Ok, map};
ghost use Rattle.std.specs.String.{string_bytes};
ghost use Rattle.command_requests.specs.Words.{AsksForVersion, IsOfWords};

use crate::request::Request;
use program_texts::Stop;
use std::alloc::Global;

/// Who reads the words behind the program's name. What a reader makes of them is its own, but the word for the version alone asks for
/// that, and what it refuses it refuses for the words, or because memory was refused.
pub trait Reader {
    /// What the words ask for, or why they ask for nothing: P1, in the reader's words or by the word that is wrong, or E16.
    fn read<'a>(&self, alloc: Global, words: &'a [String]) -> Result<Request<'a>, Stop<'a>>
        // The word for the version alone asks for it.
        ensures version { AsksForVersion (map string_bytes words.now) → result ≡ Ok Request.Version }
        // Words are refused in their parser's words, by the word that is wrong, or for want of memory, and for nothing
        // else.
        ensures refused { IfErr result IsOfWords };
}
