//! Texts that are laid out anew.

use crate::request::ProgramFile;

/// What is done with texts that are laid out.
#[derive(Clone, Copy, Debug, Drop, PartialEq, Eq)]
pub enum ArrangeForm {
    /// Each is written in the place of what its file holds; what standard input holds goes to standard output.
    InPlace,
    /// All go to standard output.
    Shown,
    /// The names of the files that would change are told.
    Checked,
}

/// The files whose texts are laid out, and what is done with these.
#[derive(Debug, Drop)]
pub struct ArrangeWords<'a> {
    pub files: Vec<ProgramFile<'a>>,
    pub form: ArrangeForm,
}
