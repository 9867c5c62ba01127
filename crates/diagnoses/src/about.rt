//! What is known of a refusal besides its line.

use crate::source::Source;

/// Why a file can't be read, or written.
#[derive(Debug, Drop)]
pub enum Unread {
    /// There is none of its name; and the name of one beside it that is spelled nearly so, if there is one.
    Missing(Option<Vec<u8>>),
    /// It is a directory.
    Directory,
    /// For another reason.
    Other,
    /// It can't be written.
    Unwritable,
}

/// What a message may speak of, beside a refusal's line.
#[derive(Drop)]
pub enum About<'a> {
    /// Nothing more.
    Nothing,
    /// The text that is refused.
    Text(Source<'a>),
    /// The text of a listing whose code is refused, and the line of the instruction that is meant, counted from 1.
    Line { source: Source<'a>, line: usize },
    /// How many values an input has, and how many cells there are for them.
    Values { values: usize, cells: u32 },
    /// Why a file can't be read, or written.
    File(Unread),
}
