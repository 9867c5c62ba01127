//! What goes wrong on an input.

use write_rules::Fault;

/// How a run on an input is wrong.
#[derive(Clone, Copy)]
pub enum Wrong {
    /// It has a fault of this one's kind, at its line.
    Faults(Fault),
    /// One statement more would begin than the bound allows.
    GoesOn,
    /// It ends, and the postcondition doesn't affirm what is handed on.
    Fails,
}
