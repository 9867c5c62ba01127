//! A run as it is told to somebody.

use crate::teller::Teller;
use pram_check::Program;
use pram_meaning::slate::Slate;
use std::alloc::Global;

/// What it takes to tell a run of a program to somebody, moment by moment: the slate on which what a set writes is worked out, and who
/// is told.
#[derive(Drop)]
pub(crate) struct Journal<'a, T: Teller> {
    pub(crate) alloc: Global,
    pub(crate) program: &'a Program,
    pub(crate) slate: Slate,
    pub(crate) teller: T,
}
