//! What is kept of entries for their picture.

ghost use Rattle.std.specs.Prelude.{◌≡◌, [], ◌∷◌, ◌++◌, OnOk, List};
ghost use Rattle.journal.specs.Entries as spec;
ghost use Rattle.journal.specs.Entries.{entry_is};
ghost use Rattle.pictures.specs.Steps.Kept.{Keeps, with_room};

use crate::steps::drawn::{FIRST_DRAWN, MOST_DRAWN};
use journal::Entry;
use std::alloc::{AllocError, Global};

/// Of some entries all, or of more than 112 the first 96, the last 16 and one between; and how many there are.
#[derive(Drop)]
pub(crate) struct Excerpt {
    pub(crate) entries: Vec<Entry>,
    pub(crate) count: u32,
}

// One between the first and the last is let go, where there are many.
#[tactic(auto, using(crate::proofs::OfSteps::KeptEntries::room_made, crate::proofs::OfSteps::KeptEntries::room_there))]
fn make_room(entries: &mut Vec<Entry>)
    ensures { entries.new.items ≡ with_room entries.old.items }
{
    if entries.len() <= MOST_DRAWN {
        return;
    }
    drop(entries.remove(FIRST_DRAWN));
}

impl Excerpt {
    /// Of no entries.
    #[tactic(auto, using(crate::proofs::OfSteps::KeptEntries::keeps_none))]
    pub(crate) fn new(alloc: Global) -> Excerpt
        ensures { Keeps result [] }
    {
        Excerpt {
            entries: Vec::new(alloc),
            count: 0,
        }
    }

    /// One entry more. Where it can't be counted that is answered as if memory was refused: no run within a bound has so many.
    pub(crate) fn add(&mut self, entry: Entry) -> Result<(), AllocError>
        ensures { OnOk result ((es : List spec.Entry) → Keeps self.old es → Keeps self.new (es ++ entry_is entry ∷ [])) }
    {
        let Some(count) = self.count.checked_add(1) else {
            return Err(AllocError);
        };
        make_room(&mut self.entries);
        self.entries.push(entry)?;
        self.count = count;
        Ok(())
    }
}
