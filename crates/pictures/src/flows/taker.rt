//! Who takes of the entries of a run what its picture is drawn from.

ghost use Rattle.std.proofs.Common.{◌∙◌};
ghost use Rattle.std.specs.Prelude.{⊤, ◌≡◌, IfOk, refl, true};
ghost use Rattle.journal.specs.Entries.{entry_is};
ghost use Rattle.pictures.specs.Flows.Asides.{asides_in};
ghost use Rattle.pictures.specs.Flows.Taken.{is_kept};
ghost use Rattle.pictures.specs.Flows.Takes.{Takes};
ghost use Rattle.pictures.specs.Flows.TakesLaws.{takes_nothing, takes_on};

use crate::Flow;
use crate::flows::asides::asides_of;
use journal::{Entry, Teller};
use pram_check::Program;
use std::alloc::{AllocError, Global};

/// Hands each entry of a run of this program to a `Flow`, with which reads of its statement stand in a subscript.
#[derive(Drop)]
pub(crate) struct Taker<'a> {
    pub(crate) alloc: Global,
    pub(crate) program: &'a Program,
    pub(crate) flow: Flow,
}

impl<'a> Taker<'a> {
    // These reads, where the entry is kept; of the others nobody asks.
    fn asides(&self, entry: &Entry) -> Result<Vec<bool>, AllocError>
        ensures { IfOk result (λ aside. is_kept self.now.flow (entry_is entry.now) ≡ true →
            aside.items ≡ asides_in self.now.program.now.body (entry_is entry.now)) }
    {
        if self.flow.keeps(entry) {
            asides_of(self.alloc, self.program, entry)
        } else {
            Ok(Vec::new(self.alloc))
        }
    }
}

/// Each entry is made: one that isn't drawn may change cells.
impl<'a> Teller for Taker<'a> {
    ghost tells = { λ a es b. (b.program ≡ a.program) × Takes (asides_in a.program.now.body) a.flow b.flow es };

    ghost breaks_off = { λ a e b. ⊤ };

    fn passes(&mut self) -> bool {
        false
    }

    fn tell(&mut self, entry: Entry) -> Result<(), AllocError> {
        let aside = self.asides(&entry)?;
        self.flow.add(self.alloc, entry, aside)
    }

    ghost tells_nothing = { λ t. (refl, takes_nothing (asides_in t.program.now.body) t.flow) };

    ghost tells_on = { λ a b c xs ys h g. (
      g.0 ∙ h.0,
      takes_on a.program b.program a.flow b.flow c.flow xs ys h.0 h.1 g.1,
    ) };
}
