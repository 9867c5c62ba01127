//! Entries as they lie in memory.

ghost use Rattle.std.specs.Prelude.{◌≡◌, Some, None};
ghost use Rattle.combining.specs.Compact.{entry_of, entry_if, compact_of};

use write_rules::Entry;

/// An entry, or none: in state 0 there is none, and in state 2 its writers clash. It has no unused bytes, so it is copied word by word.
#[derive(Clone, Copy, Debug)]
pub(crate) struct Compact {
    pub(crate) value: i128,
    pub(crate) owner: i64,
    pub(crate) state: u64,
}

impl Compact {
    /// No entry.
    #[inline(always)]
    pub(crate) fn none() -> Compact
        ensures { entry_if result ≡ None }
    {
        Compact {
            value: 0,
            owner: 0,
            state: 0,
        }
    }

    /// An entry.
    #[inline(always)]
    pub(crate) fn of(entry: Entry) -> Compact
        ensures compact { result ≡ compact_of entry }
        ensures entry { entry_of result ≡ entry }
        ensures some { entry_if result ≡ Some entry }
    {
        Compact {
            value: entry.value,
            owner: entry.owner,
            state: if entry.clash { 2 } else { 1 },
        }
    }

    /// The entry that it is, if there is one.
    #[inline(always)]
    pub(crate) fn entry(self) -> Entry
        ensures { result ≡ entry_of self }
    {
        Entry {
            owner: self.owner,
            value: self.value,
            clash: self.state == 2,
        }
    }

    /// Whether there is one, and which.
    #[inline(always)]
    pub(crate) fn entry_if(self) -> Option<Entry>
        ensures { result ≡ entry_if self }
    {
        if self.state == 0 {
            None
        } else {
            Some(self.entry())
        }
    }
}
