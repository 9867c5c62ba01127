//! Keys of faults: which fault of a run is told.

ghost use Rattle.std.specs.Prelude.{◌≡◌};
ghost use Rattle.superstep_machine.specs.Keys as spec;

use pram_values::{Kind, Place};

/// A fault that a processor or a module noted. Of several the least is told: that of the earliest
/// statement, there that of the least position, there one of a single processor before a conflict,
/// then the first by place.
#[derive(Clone, Copy, Debug, PartialEq, Eq)]
pub struct Key {
    /// How many statements had begun, this one included.
    pub count: u32,
    /// Where in its statement the operation stands.
    pub position: u32,
    /// Whether several processors are in it: a conflict at a cell, or a sum that no `i64` has.
    pub conflict: bool,
    pub place: Place,
    pub kind: Kind,
    /// The line of the statement.
    pub line: u32,
}

/// The order of kinds.
pub(crate) fn rank(kind: Kind) -> u8
    ensures { result ≡ spec.rank kind }
{
    match kind {
        Kind::Overflow => 0,
        Kind::DivideByZero => 1,
        Kind::OutOfRange => 2,
        Kind::TooWide => 3,
        Kind::ReadConflict => 4,
        Kind::WriteConflict => 5,
    }
}

impl Key {
    // Whether it is told rather than another of the same count and position.
    fn is_first_there(self, other: Key) -> bool
        ensures { result ≡ spec.is_first_there self other }
    {
        if self.conflict != other.conflict {
            return other.conflict;
        }
        if self.place != other.place {
            return self.place.is_before(other.place);
        }
        if self.kind != other.kind {
            return rank(self.kind) < rank(other.kind);
        }
        self.line <= other.line
    }

    /// Whether it is told rather than another.
    pub fn is_first(self, other: Key) -> bool
        ensures { result ≡ spec.is_first self other }
    {
        if self.count != other.count {
            return self.count < other.count;
        }
        if self.position != other.position {
            return self.position < other.position;
        }
        self.is_first_there(other)
    }
}

/// The lesser of two keys, where there are any.
pub fn least(a: Option<Key>, b: Option<Key>) -> Option<Key>
    ensures { result ≡ spec.least a b }
{
    match (a, b) {
        (None, _) => b,
        (_, None) => a,
        (Some(x), Some(y)) => Some(if x.is_first(y) { x } else { y }),
    }
}
