//! Entries that are kept from one number to another.

ghost use Rattle.std.specs.Prelude.{⊤, ◌≡◌, map, refl};
ghost use Rattle.std.proofs.Common.{◌∙◌};
ghost use Rattle.journal.specs.Entries.{entry_is};
ghost use Rattle.journal.specs.Between.{KeepsBetween};
ghost use Rattle.journal.specs.BetweenLaws.{between_nothing, between_on};

use crate::Entry;
use crate::teller::Teller;
use std::alloc::AllocError;

/// The entries of a run whose numbers, counted from 1, go from `first` to `last`, in order, and how many came so far.
#[derive(Drop)]
pub(crate) struct Window {
    pub(crate) first: usize,
    pub(crate) last: usize,
    pub(crate) count: usize,
    pub(crate) entries: Vec<Entry>,
}

/// Entries that can't be counted are answered as if memory was refused: no run within a bound has so many.
impl Teller for Window {
    ghost tells = { λ a es b. (b.first ≡ a.first) × (b.last ≡ a.last)
        × KeepsBetween a.first a.last a.count b.count (map entry_is a.entries.items) (map entry_is b.entries.items) es };

    ghost breaks_off = { λ a e b. ⊤ };

    fn passes(&mut self) -> bool {
        let Some(number) = self.count.checked_add(1) else {
            return false;
        };
        if self.first <= number && number <= self.last {
            return false;
        }
        self.count = number;
        true
    }

    fn tell(&mut self, entry: Entry) -> Result<(), AllocError> {
        let Some(number) = self.count.checked_add(1) else {
            return Err(AllocError);
        };
        if self.first <= number && number <= self.last {
            self.entries.push(entry)?;
        }
        self.count = number;
        Ok(())
    }

    ghost tells_nothing = { λ t. (refl, refl, between_nothing t.first t.last t.count (map entry_is t.entries.items)) };

    ghost tells_on = { λ a b c xs ys h g. (
      g.0 ∙ h.0,
      g.1 ∙ h.1,
      between_on a.first a.last b.first b.last a.count b.count c.count
          (map entry_is a.entries.items) (map entry_is b.entries.items) (map entry_is c.entries.items) xs ys h.0 h.1 h.2 g.2,
    ) };
}
