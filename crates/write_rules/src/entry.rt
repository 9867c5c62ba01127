//! Entries: what the writers of one cell come to so far.

ghost use Rattle.std.specs.Prelude.{◌≡◌};
ghost use Rattle.write_rules.specs.Combining as spec;
ghost use Rattle.pram_values.specs.Value.{checked};

use pram_values::Kind;

/// What the writers of one cell come to so far, small and the same for all rules: the writer of
/// least index, the value, wide enough for a sum, and whether the writers clash.
#[derive(Clone, Copy, Debug, PartialEq, Eq)]
pub struct Entry {
    pub owner: i64,
    pub value: i128,
    pub clash: bool,
}

impl Entry {
    /// One writer alone.
    pub fn of(processor: i64, value: i64) -> Entry
        ensures { result ≡ spec.entry_of processor value }
    {
        Entry {
            owner: processor,
            value: i128::from(value),
            clash: false,
        }
    }

    // Whether this one stands before another: by owner, and by value where they have one owner.
    fn is_first(self, other: Entry) -> bool
        ensures { result ≡ spec.is_first self other }
    {
        self.owner < other.owner || (self.owner == other.owner && self.value <= other.value)
    }

    /// The first of two, by owner, and by value where they have one owner; with a mark of their clash.
    pub fn first_of(self, other: Entry, clash: bool) -> Entry
        ensures { result ≡ spec.first_of clash self other }
    {
        if self.is_first(other) {
            Entry { clash, ..self }
        } else {
            Entry { clash, ..other }
        }
    }

    /// Its value; Overflow if it is no i64.
    #[tactic(auto, using(pram_values::proofs::Checked::checked_some, pram_values::proofs::Checked::checked_none))]
    pub fn narrowed(self) -> Result<i64, Kind>
        ensures { result ≡ checked self.value }
    {
        match i64::try_from(self.value) {
            Ok(value) => Ok(value),
            Err(_) => Err(Kind::Overflow),
        }
    }

    /// Its value; WriteConflict if its writers clash, else Overflow if it is no i64.
    pub fn unless_clash(self) -> Result<i64, Kind>
        ensures { result ≡ spec.unless_clash self }
    {
        if self.clash {
            return Err(Kind::WriteConflict);
        }
        self.narrowed()
    }
}
