//! The reference interpreter.

use pram_check::Program;
use std::alloc::Global;

/// What stays the same through a run: the program, and the most statements that it may run.
#[derive(Clone, Copy)]
pub struct Interpreter<'a> {
    pub alloc: Global,
    pub program: &'a Program,
    pub bound: u32,
}
