//! Which entries of a run are told, and what of each.

use crate::form::Form;
use memory_texts::Choice;

/// Which entries of a run are told, counted from 1, and what of each.
#[derive(Clone, Copy, Debug)]
pub struct StepWords<'a> {
    /// The number of the first.
    pub from: u32,
    /// The number of the last.
    pub to: u32,
    /// Whether changed variables and locals, printed numbers and the locals at a fault are told too.
    pub locals: bool,
    /// Whether the column at which each statement begins is told too.
    pub columns: bool,
    /// The cells, variables and locals that alone are told, where names are given, and no statement that changed none of them.
    pub only: Choice<'a>,
    pub form: Form,
    /// The declarations whose cells a flow of data is drawn of.
    pub drawn: Choice<'a>,
}
