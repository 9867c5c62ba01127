//! What is found of a run.

ghost use Rattle.std.specs.Prelude.{◌≡◌};
ghost use Rattle.comparing.specs.RulesTold as spec;

use pram_values::Kind;
use write_rules::Fault;

/// How a program comes out under a rule, beside how it does under the rule that it declares, or else under the first under which it
/// ends.
#[derive(Clone, Copy, Debug, Drop, PartialEq, Eq)]
pub enum Finding {
    /// It ends, with that end's output and memory.
    Same,
    /// It ends, with another output or another memory.
    Other,
    /// A statement faults.
    Faulted(Fault),
    /// One statement more would begin than the bound allows.
    GoesOn,
}

impl Finding {
    /// Whether processors met at a cell, as the rule forbids.
    pub(crate) fn is_conflict(self) -> bool
        ensures { result ≡ spec.is_conflict self }
    {
        match self {
            Finding::Same | Finding::Other | Finding::GoesOn => false,
            Finding::Faulted(fault) => match fault.kind {
                Kind::ReadConflict | Kind::WriteConflict => true,
                Kind::Overflow | Kind::DivideByZero | Kind::OutOfRange | Kind::TooWide => false,
            },
        }
    }
}
