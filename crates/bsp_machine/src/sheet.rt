//! Rows of messages.

ghost use Rattle.std.specs.Prelude.{◌≡◌, ℕ, vec_capacity, IfOk};
ghost use Rattle.bsp_machine.specs.Sheets.{IsSheet};

use crate::letter::Letter;
use std::alloc::{AllocError, Global};
use worker_exchange::Row;

/// A row: a message for each worker.
#[derive(Drop)]
pub(crate) struct Sheet {
    pub(crate) letters: Vec<Letter>,
}

impl Row for Sheet {
    ghost use Rattle.std.specs.Prelude.{◌≡◌, refl};
    ghost use Rattle.std.proofs.Common.{◌∙◌};
    ghost use Rattle.bsp_machine.specs.Sheets.{messages_in, rooms_in, least_room};

    ghost filled = { λ s. messages_in s };

    ghost room = { λ s. least_room (rooms_in s) };

    // Each message has the room that it had.
    ghost kept = { λ a b. rooms_in b ≡ rooms_in a };

    ghost kept_same = { λ s. refl };

    ghost kept_on = { λ a b c e f. f ∙ e };

    fn fill(&mut self, to: usize, header: [u64; 4], words: &[u64]) -> bool {
        self.letters[to].write(header, words)
    }
}

impl Sheet {
    /// A row to so many workers, each message with room for so many words.
    pub(crate) fn with_room(alloc: Global, workers: u32, most: usize) -> Result<Sheet, AllocError>
        ensures { IfOk result (λ s. IsSheet workers most s) }
    {
        let mut letters = Vec::with_capacity(alloc, workers as usize)?;
        'workers: for _j in 0..workers {
            letters.push(Letter::with_room(alloc, most)?)?;
        }
        Ok(Sheet { letters })
    }
}
