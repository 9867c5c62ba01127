//! Who keeps of the entries of a run what the picture of some of them is drawn from.

ghost use Rattle.std.specs.Prelude.{⊤, ◌≡◌, refl};
ghost use Rattle.std.proofs.Common.{◌∙◌};
ghost use Rattle.pictures.specs.Steps.Kept.{KeepsAsked};
ghost use Rattle.pictures.specs.Steps.KeptLaws.{keeps_nothing, keeps_on};

use crate::steps::excerpt::Excerpt;
use journal::{Entry, Teller};
use std::alloc::AllocError;

/// What is kept of the entries whose numbers, counted from 1, go from `first` to `last`, and how many came so far.
#[derive(Drop)]
pub(crate) struct Keeper {
    pub(crate) first: usize,
    pub(crate) last: usize,
    pub(crate) count: usize,
    pub(crate) excerpt: Excerpt,
}

/// Entries that can't be counted are answered as if memory was refused: no run within a bound has so many.
impl Teller for Keeper {
    ghost tells = { λ a es b. (b.first ≡ a.first) × (b.last ≡ a.last)
        × KeepsAsked a.first a.last a.count b.count a.excerpt b.excerpt es };

    ghost breaks_off = { λ a e b. ⊤ };

    #[tactic(auto, using(crate::specs::Steps::KeptLaws::keeps_nothing, crate::proofs::OfSteps::KeptEntries::asked_before, crate::proofs::OfSteps::KeptEntries::asked_past))]
    fn passes(&mut self) -> bool {
        let Some(number) = self.count.checked_add(1) else {
            return false;
        };
        if self.first <= number && number <= self.last {
            return false;
        }
        self.count = number;
        true
    }

    fn tell(&mut self, entry: Entry) -> Result<(), AllocError> {
        let Some(number) = self.count.checked_add(1) else {
            return Err(AllocError);
        };
        if number < self.first {
            self.count = number;
            return Ok(());
        }
        if self.last < number {
            self.count = number;
            return Ok(());
        }
        self.excerpt.add(entry)?;
        self.count = number;
        Ok(())
    }

    ghost tells_nothing = { λ t. (refl, refl, keeps_nothing t.first t.last t.count t.excerpt) };

    ghost tells_on = { λ a b c xs ys h g. (
      g.0 ∙ h.0,
      g.1 ∙ h.1,
      keeps_on a.first a.last b.first b.last a.count b.count c.count a.excerpt b.excerpt c.excerpt xs ys h.0 h.1 h.2 g.2,
    ) };
}
