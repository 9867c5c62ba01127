//! A message as it lies between two workers.

ghost use Rattle.std.specs.Prelude.{◌≡◌, ◌≤◌, length, vec_capacity, IsTrue, IfOk};
ghost use Rattle.std.specs.Bool.{OnTrue, OnFalse};
ghost use Rattle.bsp_machine.specs.Sheets.{message_in, no_words};

use std::alloc::{AllocError, Global};
use worker_exchange::put_words;

/// A message: the words of its header, and its words, for which there is room from the beginning.
#[derive(Drop)]
pub(crate) struct Letter {
    pub(crate) header: [u64; 4],
    pub(crate) words: Vec<u64>,
}

impl Letter {
    /// A message without words, with room for so many. The error comes where memory was refused.
    pub(crate) fn with_room(alloc: Global, most: usize) -> Result<Letter, AllocError>
        ensures empty { IfOk result (λ x. message_in x ≡ no_words) }
        ensures room { IfOk result (λ x. vec_capacity x.words ≡ most) }
    {
        let words = Vec::with_capacity(alloc, most)?;
        Ok(Letter {
            header: [0; 4],
            words,
        })
    }

    /// Puts this header and these words in place of what it has. `false` says that there is no room: then nothing is changed.
    pub(crate) fn write(&mut self, header: [u64; 4], words: &[u64]) -> bool
        ensures written { OnTrue result (message_in self.new ≡ record { header = header; words = words.now }) }
        ensures fits { length words.now ≤ vec_capacity self.old.words → IsTrue result }
        ensures refused { OnFalse result (message_in self.new ≡ message_in self.old) }
        ensures room { vec_capacity self.new.words ≡ vec_capacity self.old.words }
    {
        if words.len() > self.words.capacity() {
            return false;
        }
        put_words(words, &mut self.words);
        self.header = header;
        true
    }
}
