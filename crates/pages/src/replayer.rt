//! Who follows a run to the state behind one of its entries.

ghost use Rattle.std.proofs.Common.{◌∙◌};
ghost use Rattle.std.specs.Prelude.{⊤, ◌≡◌, refl};
ghost use Rattle.pages.specs.GatheredLaws.{replays_nothing, replays_as};
ghost use Rattle.pages.specs.Gathered.{Replays};

use crate::state::RunState;
use journal::{Entry, Teller};
use std::alloc::AllocError;

/// Makes the changes of the entries up to the `last` one, and lets the others pass; how many came so far.
#[derive(Drop)]
pub(crate) struct Replayer {
    pub(crate) last: usize,
    pub(crate) count: usize,
    pub(crate) state: RunState,
}

/// Entries that can't be counted are answered as if memory was refused: no run within a bound has so many.
impl Teller for Replayer {
    ghost tells = { λ a es b. (b.last ≡ a.last) × Replays a.last a.count b.count a.state b.state es };

    ghost breaks_off = { λ a e b. ⊤ };

    #[tactic(auto, using(crate::specs::GatheredLaws::replays_nothing, crate::proofs::OneEntry::state_passed))]
    fn passes(&mut self) -> bool {
        let Some(number) = self.count.checked_add(1) else {
            return false;
        };
        if number <= self.last {
            return false;
        }
        self.count = number;
        true
    }

    #[tactic(auto, using(crate::proofs::OneEntry::state_passed, crate::proofs::OneEntry::state_on))]
    fn tell(&mut self, entry: Entry) -> Result<(), AllocError> {
        let Some(number) = self.count.checked_add(1) else {
            return Err(AllocError);
        };
        if self.last < number {
            self.count = number;
            return Ok(());
        }
        self.state.go_on(&entry)?;
        self.count = number;
        Ok(())
    }

    ghost tells_nothing = { λ t. (refl, replays_nothing t.last t.count t.state) };

    ghost tells_on = { λ a b c xs ys h g. (
      g.0 ∙ h.0,
      replays_as a.last b.last a.count b.count c.count a.state b.state c.state xs ys h.0 h.1 g.1,
    ) };
}
