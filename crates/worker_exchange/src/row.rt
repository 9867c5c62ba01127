//! Rows: what a worker sends in an exchange.

ghost use Rattle.std.specs.Prelude.{◌≡◌, ◌<◌, ◌≤◌, length, slice_set, IsTrue};
ghost use Rattle.std.specs.Bool.{OnTrue, OnFalse};

/// A row to be filled: a message for each worker, which is the words of its header and words.
pub trait Row {
    ghost use Rattle.std.specs.Prelude.{ℕ, List};
    ghost use Rattle.worker_exchange.specs.Rows.{WrittenMessage};

    /// The messages, one for each worker.
    ghost filled: { Self → List WrittenMessage };

    /// For how many words each message has room, beside its header.
    ghost room: { Self → ℕ };

    /// What filling leaves of the row besides the messages.
    ghost kept: { Self → Self → Type 0 };

    /// Puts this header and these words in place of the message to a worker. `false` says that there are more words than a message
    /// has room for: then nothing is changed.
    fn fill(&mut self, to: usize, header: [u64; 4], words: &[u64]) -> bool
        requires { to < length (filled self.old) }
        // Where it is filled in, the message to the worker is this header and these words, and the others stay.
        ensures filled { OnTrue result (filled self.new ≡ slice_set (filled self.old) to (record { header = header; words = words.now })) }
        // It is filled in where there is room for the words.
        ensures fits { length words.now ≤ room self.old → IsTrue result }
        // Where it isn't filled in, the row stays.
        ensures refused { OnFalse result (filled self.new ≡ filled self.old) }
        ensures room { room self.new ≡ room self.old }
        ensures kept { kept self.old self.new };

    ghost kept_same: { (r : Self) → kept r r };

    ghost kept_on: { (a b c : Self) → kept a b → kept b c → kept a c };
}
