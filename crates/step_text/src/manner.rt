//! How entries are written.

/// How entries are written.
#[derive(Clone, Copy, Debug)]
pub enum Manner<'a> {
    /// Each on a line.
    Plain,
    /// For a reader on a terminal: beside each stands its line of the program's text, and changes are coloured if that is asked for.
    OnTerminal { text: &'a [u8], colours: bool },
}
