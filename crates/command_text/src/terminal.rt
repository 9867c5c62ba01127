//! What the program's streams are.

/// What is known of the program's streams.
#[derive(Clone, Copy, Debug, PartialEq, Eq)]
pub struct Terminal {
    /// Whether standard error is a terminal. What is refused, and a fault, is explained there then.
    pub errors: bool,
    /// Whether what is refused is told there in the lines that editors read.
    pub gnu: bool,
    /// Whether standard output is a terminal. A run is told statement by statement beside the program's text there.
    pub output: bool,
    /// Whether colours are wanted on a terminal.
    pub colours: bool,
}
