//! Who gathers of the entries of a run what its page takes.

ghost use Rattle.std.proofs.Common.{◌∙◌};
ghost use Rattle.std.specs.Prelude.{⊤, ◌≡◌, ◌++◌, List, ℤ, refl};
ghost use Rattle.journal.specs.Entries as spec;
ghost use Rattle.pages.specs.GatheredLaws.{told_nothing, told_on};
ghost use Rattle.pages.specs.Gathered.{IsGathering};

use crate::asked::Asked;
use crate::first_lines::FirstLines;
use crate::recent::Recent;
use crate::state::RunState;
use journal::{Entry, Teller};
use std::alloc::{AllocError, Global};

/// Makes the changes of the entries before the first one that is asked for. Of those that are asked for it makes lines as far as the first
/// ones have room, and keeps the last ones, whose lines are made when the run is over; how many entries came so far.
#[derive(Drop)]
pub(crate) struct Gatherer<'a> {
    pub(crate) alloc: Global,
    pub(crate) asked: Asked<'a>,
    pub(crate) count: usize,
    pub(crate) state: RunState,
    pub(crate) recent: Recent,
    pub(crate) first: FirstLines,
}

/// Entries that can't be counted are answered as if memory was refused: no run within a bound has so many.
impl<'a> Teller for Gatherer<'a> {
    ghost tells = { λ a es b. (b.asked ≡ a.asked) × ((input : List ℤ) (before : List spec.Entry) → IsGathering input before a →
        IsGathering input (before ++ es) b) };

    ghost breaks_off = { λ a e b. ⊤ };

    #[tactic(auto, using(crate::specs::GatheredLaws::told_nothing))]
    fn passes(&mut self) -> bool {
        let Some(number) = self.count.checked_add(1) else {
            return false;
        };
        if number < self.asked.first || number <= self.asked.last {
            return false;
        }
        self.count = number;
        true
    }

    fn tell(&mut self, entry: Entry) -> Result<(), AllocError> {
        let Some(number) = self.count.checked_add(1) else {
            return Err(AllocError);
        };
        if number < self.asked.first {
            self.state.go_on(&entry)?;
            self.recent.keep(self.alloc, entry)?;
            self.count = number;
            return Ok(());
        }
        if self.asked.last < number {
            self.count = number;
            return Ok(());
        }
        self.first.add(self.alloc, self.asked, number, &entry)?;
        self.recent.keep(self.alloc, entry)?;
        self.count = number;
        Ok(())
    }

    ghost tells_nothing = { λ t. (refl, λ input before h. told_nothing input before t h) };

    ghost tells_on = { λ a b c xs ys h g. (
      g.0 ∙ h.0,
      λ input before start. told_on input before xs ys c (g.1 input (before ++ xs) (h.1 input before start)),
    ) };
}
