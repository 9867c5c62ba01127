//! Columns: what comes to a worker in an exchange.

ghost use Rattle.std.specs.Prelude.{◌≡◌, ◌<◌, ◌≤◌, length, ℕ};
ghost use Rattle.worker_exchange.specs.Rows.{message_at};

/// A column that came: a message from each worker, which is the words of its header and words.
pub trait Column {
    ghost use Rattle.std.specs.Prelude.{ℕ, List, ◌≤◌, length};
    ghost use Rattle.worker_exchange.specs.Rows.{WrittenMessage, message_at};

    /// The messages, one from each worker.
    ghost came: { Self → List WrittenMessage };

    /// How many words each message has at most.
    ghost room: { Self → ℕ };

    /// The words of the header of the message from a worker.
    fn header(&self, from: usize) -> [u64; 4]
        requires { from < length (came self.now) }
        // The answer is the header of the message that came from the worker.
        ensures { result ≡ (message_at (came self.now) from).header };

    /// The words of the message from a worker.
    fn words(&self, from: usize) -> &[u64]
        requires { from < length (came self.now) }
        // The answer is the words of the message that came from the worker.
        ensures { result.now ≡ (message_at (came self.now) from).words };

    // No message of a column is longer than the column has room for.
    ghost fits: { (c : Self) (i : ℕ) → length (message_at (came c) i).words ≤ room c };
}
