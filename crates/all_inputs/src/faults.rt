//! The faults that may come.

ghost use Rattle.std.specs.Prelude.{◌≡◌, [], ◌∷◌, Some, IsSome};
ghost use Rattle.std.specs.Option.{option_or};
ghost use Rattle.pram_values.specs.declared.kind.Kind.{Kind as AnyKind};
ghost use Rattle.all_inputs.specs.Faulting.{May, AreKept, reason_for, has_fault, kinds_of, no_faults, single};

use crate::reason::Reason;
use pram_values::Kind;

/// The kinds of faults, in the order in which they are told.
pub(crate) const KINDS: [Kind; 6] = [
    Kind::Overflow,
    Kind::DivideByZero,
    Kind::OutOfRange,
    Kind::TooWide,
    Kind::ReadConflict,
    Kind::WriteConflict,
];

/// The kinds of faults that a statement may have, each with the first reason that was found for it.
#[derive(Clone, Copy, Debug, PartialEq, Eq)]
pub struct Faults {
    pub overflow: Option<Reason>,
    pub divide_by_zero: Option<Reason>,
    pub out_of_range: Option<Reason>,
    pub too_wide: Option<Reason>,
    pub read_conflict: Option<Reason>,
    pub write_conflict: Option<Reason>,
}

// The first of two reasons, of which there is one.
fn first(reason: Option<Reason>, other: Reason) -> Option<Reason>
    ensures { IsSome result }
{
    match reason {
        Some(_) => reason,
        None => Some(other),
    }
}

impl Faults {
    /// No fault may come.
    pub fn none() -> Faults
        // There is no reason for a fault of any kind.
        ensures { result ≡ no_faults }
    {
        Faults {
            overflow: None,
            divide_by_zero: None,
            out_of_range: None,
            too_wide: None,
            read_conflict: None,
            write_conflict: None,
        }
    }

    /// A fault of that kind alone may come, for that reason.
    pub(crate) fn only(kind: Kind, reason: Reason) -> Faults
        // The list of the kinds that may come has this one and no other, ..
        ensures kind { kinds_of result ≡ kind ∷ [] }
        // .. for that reason.
        ensures reason { reason_for kind result ≡ Some reason }
    {
        let some = Some(reason);
        let none = Faults::none();
        match kind {
            Kind::Overflow => Faults {
                overflow: some,
                ..none
            },
            Kind::DivideByZero => Faults {
                divide_by_zero: some,
                ..none
            },
            Kind::OutOfRange => Faults {
                out_of_range: some,
                ..none
            },
            Kind::TooWide => Faults {
                too_wide: some,
                ..none
            },
            Kind::ReadConflict => Faults {
                read_conflict: some,
                ..none
            },
            Kind::WriteConflict => Faults {
                write_conflict: some,
                ..none
            },
        }
    }

    /// Why a fault of that kind may come, where it may.
    pub fn reason(&self, kind: Kind) -> Option<Reason>
        // It is the reason that was noted for that kind.
        ensures { result ≡ reason_for kind self.now }
    {
        match kind {
            Kind::Overflow => self.overflow,
            Kind::DivideByZero => self.divide_by_zero,
            Kind::OutOfRange => self.out_of_range,
            Kind::TooWide => self.too_wide,
            Kind::ReadConflict => self.read_conflict,
            Kind::WriteConflict => self.write_conflict,
        }
    }

    /// A fault of that kind may come, for that reason if there was none.
    pub fn note(&mut self, kind: Kind, reason: Reason)
        // Behind it a fault of that kind may come.
        ensures noted { May kind self.new }
        // And so may each that might before.
        ensures kept { AreKept self.old self.new }
    {
        match kind {
            Kind::Overflow => self.overflow = first(self.overflow, reason),
            Kind::DivideByZero => self.divide_by_zero = first(self.divide_by_zero, reason),
            Kind::OutOfRange => self.out_of_range = first(self.out_of_range, reason),
            Kind::TooWide => self.too_wide = first(self.too_wide, reason),
            Kind::ReadConflict => self.read_conflict = first(self.read_conflict, reason),
            Kind::WriteConflict => self.write_conflict = first(self.write_conflict, reason),
        }
    }

    /// These faults and the others, each kind with the reason that these have for it, if they have one.
    pub(crate) fn with(&self, other: &Faults) -> Faults
        // The reason for each kind is the one of these faults, or else that of the others.
        ensures { (kind : AnyKind) → reason_for kind result ≡ option_or (reason_for kind self.now) (reason_for kind other.now) }
    {
        Faults {
            overflow: self.overflow.or(other.overflow),
            divide_by_zero: self.divide_by_zero.or(other.divide_by_zero),
            out_of_range: self.out_of_range.or(other.out_of_range),
            too_wide: self.too_wide.or(other.too_wide),
            read_conflict: self.read_conflict.or(other.read_conflict),
            write_conflict: self.write_conflict.or(other.write_conflict),
        }
    }

    /// Whether a fault of some kind may come.
    pub(crate) fn has_any(&self) -> bool
        // It says whether there is a kind with a reason.
        ensures { result ≡ has_fault self.now }
    {
        self.overflow.is_some()
            || self.divide_by_zero.is_some()
            || self.out_of_range.is_some()
            || self.too_wide.is_some()
            || self.read_conflict.is_some()
            || self.write_conflict.is_some()
    }

    /// The one kind of which a fault may come, where there is just one.
    pub(crate) fn only_kind(&self) -> Option<Kind>
        // It is the one item of the list of such kinds.
        ensures { result ≡ single (kinds_of self.now) }
    {
        let mut only = None;
        for kind in KINDS {
            if self.reason(kind).is_some() {
                if only.is_some() {
                    return None;
                }
                only = Some(kind);
            }
        }
        only
    }
}
