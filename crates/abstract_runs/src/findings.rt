//! The faults that may come in a statement, by their positions.

ghost use Rattle.std.specs.Prelude.{◌≡◌, ℕ, None};
ghost use Rattle.pram_values.specs.declared.kind.Kind.{Kind as AnyKind};
ghost use Rattle.all_inputs.specs.Faulting.{reason_for};
ghost use Rattle.abstract_runs.specs.Finding.{AreKept, IsBy, MayBy, found_for, reason_within};

use crate::finding::Finding;
use all_inputs::{Faults, Reason};
use pram_values::Kind;

/// The kinds of faults that a statement may have, each with the least position that was found for it.
#[derive(Clone, Copy, Debug, PartialEq, Eq)]
pub struct Findings {
    pub overflow: Option<Finding>,
    pub divide_by_zero: Option<Finding>,
    pub out_of_range: Option<Finding>,
    pub too_wide: Option<Finding>,
    pub read_conflict: Option<Finding>,
    pub write_conflict: Option<Finding>,
}

// What was found at the least position, of which there is one; the first of two at one position.
fn sooner(found: Option<Finding>, other: Finding) -> Option<Finding>
    ensures noted { IsBy other.position result }
    ensures kept { (at : ℕ) → IsBy at found → IsBy at result }
{
    match found {
        Some(first) if first.position <= other.position => found,
        _ => Some(other),
    }
}

// Why, where it was found at the last position or before.
fn told(found: Option<Finding>, last: Option<usize>) -> Option<Reason>
    ensures { result ≡ reason_within last found }
{
    let Some(finding) = found else {
        return None;
    };
    let Some(position) = last else {
        return Some(finding.reason);
    };
    if position < finding.position {
        return None;
    }
    Some(finding.reason)
}

impl Findings {
    /// No fault may come.
    pub fn none() -> Findings
        // Nothing is found of any kind.
        ensures { (kind : AnyKind) → found_for kind result ≡ None }
    {
        Findings {
            overflow: None,
            divide_by_zero: None,
            out_of_range: None,
            too_wide: None,
            read_conflict: None,
            write_conflict: None,
        }
    }

    /// A fault of that kind may come at that position, for that reason if none was found at it or before.
    pub fn note(&mut self, kind: Kind, position: usize, reason: Reason)
        // Behind it a fault of that kind may come at that position.
        ensures noted { MayBy kind position self.new }
        // And so may each that might before.
        ensures kept { AreKept self.old self.new }
    {
        let other = Finding { position, reason };
        match kind {
            Kind::Overflow => self.overflow = sooner(self.overflow, other),
            Kind::DivideByZero => self.divide_by_zero = sooner(self.divide_by_zero, other),
            Kind::OutOfRange => self.out_of_range = sooner(self.out_of_range, other),
            Kind::TooWide => self.too_wide = sooner(self.too_wide, other),
            Kind::ReadConflict => self.read_conflict = sooner(self.read_conflict, other),
            Kind::WriteConflict => self.write_conflict = sooner(self.write_conflict, other),
        }
    }

    /// The faults that may come at the last position or before it, anywhere where there is no last one.
    pub fn within(&self, last: Option<usize>) -> Faults
        // The reason for each kind is what was found by that position.
        ensures { (kind : AnyKind) → reason_for kind result ≡ reason_within last (found_for kind self.now) }
    {
        Faults {
            overflow: told(self.overflow, last),
            divide_by_zero: told(self.divide_by_zero, last),
            out_of_range: told(self.out_of_range, last),
            too_wide: told(self.too_wide, last),
            read_conflict: told(self.read_conflict, last),
            write_conflict: told(self.write_conflict, last),
        }
    }
}
