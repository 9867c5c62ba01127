//! Programs that were read.

use diagnoses::Source;
use pram_check::Program;

/// A program, with the text that it was read from.
#[derive(Drop)]
pub struct Loaded<'a> {
    pub source: Source<'a>,
    pub program: Program,
}
