//! Messages of two workers, in place of a barrier.

ghost use Rattle.std.specs.Prelude.{◌≡◌, vec_capacity, IfOk};

use bsp_machine::{Column, Row, put_words};
use std::alloc::{AllocError, Global};

/// What a worker sends to each of two.
#[derive(Drop)]
pub(crate) struct ToBoth {
    first_header: [u64; 4],
    first: Vec<u64>,
    second_header: [u64; 4],
    second: Vec<u64>,
    room: usize,
    ghost first_room: { vec_capacity first ≡ room },
    ghost second_room: { vec_capacity second ≡ room },
}

impl Row for ToBoth {
    ghost use Rattle.std.specs.Prelude.{[], ◌∷◌};

    ghost filled = { λ r. record { header = r.first_header; words = r.first.items }
        ∷ record { header = r.second_header; words = r.second.items } ∷ [] };

    ghost room = { λ r. r.room };

    ghost kept = { λ a b. Unit {0} };

    ghost kept_same = { λ r. tt };

    ghost kept_on = { λ a b c e f. tt };

    fn fill(&mut self, to: usize, header: [u64; 4], words: &[u64]) -> bool {
        if words.len() > self.room {
            return false;
        }
        match to {
            0 => {
                put_words(words, &mut self.first);
                self.first_header = header;
            }
            _ => {
                put_words(words, &mut self.second);
                self.second_header = header;
            }
        }
        true
    }
}

impl ToBoth {
    /// Messages without words, each with room for so many. The error comes where memory was refused.
    pub(crate) fn with_room(alloc: Global, room: usize) -> Result<ToBoth, AllocError>
        ensures { IfOk result (λ r. r.room ≡ room) }
    {
        let first = Vec::with_capacity(alloc, room)?;
        let second = Vec::with_capacity(alloc, room)?;
        Ok(ToBoth {
            first_header: [0; 4],
            first,
            second_header: [0; 4],
            second,
            room,
        })
    }
}

/// The same message from each of two workers.
#[derive(Drop)]
pub(crate) struct FromBoth<'a> {
    pub(crate) header: [u64; 4],
    pub(crate) words: &'a [u64],
}

impl<'a> Column for FromBoth<'a> {
    ghost use Rattle.std.specs.Prelude.{[], ◌∷◌, length};
    ghost use Rattle.code_tests.specs.TwoMessages.{told_by, none_longer};

    ghost came = { λ c. told_by c.header c.words.now ∷ told_by c.header c.words.now ∷ [] };

    ghost room = { λ c. length c.words.now };

    fn header(&self, _from: usize) -> [u64; 4] {
        self.header
    }

    fn words(&self, _from: usize) -> &[u64] {
        self.words
    }

    ghost fits = { λ c i. none_longer (told_by c.header c.words.now) i };
}
