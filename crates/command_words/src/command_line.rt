//! A reader of command lines.

use crate::reading::read_words;
use command_requests::{Reader, Request};
use program_texts::Stop;
use std::alloc::Global;

/// Reads command lines by the grammar of `pramc --help`.
#[derive(Clone, Copy, Debug)]
pub struct CommandLine {}

impl Reader for CommandLine {
    fn read<'a>(&self, alloc: Global, words: &'a [String]) -> Result<Request<'a>, Stop<'a>> {
        read_words(alloc, words)
    }
}
