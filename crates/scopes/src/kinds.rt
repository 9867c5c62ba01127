//! Which faults are told as one.

ghost use Rattle.std.specs.Prelude.{◌≡◌};
ghost use Rattle.scopes.specs.Firsts as spec;

use pram_values::Kind;
use write_rules::Fault;

// The number of a kind, which no other has.
fn kind_number(kind: Kind) -> u8
    ensures { result ≡ spec.kind_number kind }
{
    match kind {
        Kind::Overflow => 0,
        Kind::DivideByZero => 1,
        Kind::OutOfRange => 2,
        Kind::TooWide => 3,
        Kind::ReadConflict => 4,
        Kind::WriteConflict => 5,
    }
}

/// Whether two faults are of one kind, at one line.
pub(crate) fn is_alike(fault: Fault, other: Fault) -> bool
    ensures { result ≡ spec.are_alike fault other }
{
    kind_number(fault.kind) == kind_number(other.kind) && fault.line == other.line
}
