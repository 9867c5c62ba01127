// A run of words in a block. Here and in deed.rt are the functions that are proved by hand.
ghost use Rattle.std.specs.Prelude.{◌≡◌, ℕ, ◌+◌, ◌-◌, ◌*◌, ◌^◌, ◌<◌, ◌≤◌, List, [], ◌∷◌, ◌++◌, length};
ghost use denote.RawPtr.{Ptr, ◌+ₚ◌};
ghost use Rattle.exchange_arena.specs.Ownership.{run_owns, run_lent};

use std::marker::{Model, Send, Sync};

// Room for `room` words at `ptr`, which is `start` words into the block at `base`. The first words are `items`.
pub(crate) struct Run {
    pub(crate) ptr: *mut u64,
    pub(crate) ghost base: { Ptr },
    pub(crate) ghost start: { ℕ },
    pub(crate) ghost room: { ℕ },
    pub(crate) ghost items: { List ℕ },
    ghost placed: { ptr ≡ base +ₚ (start * 8) },
    ghost fits: { length items ≤ room },
    ghost small: { room * 8 < 2 ^ 63 },
}

impl Model for Run {
    ghost also_owns = { λ r. run_owns r.ptr r.room r.items };

    ghost also_shares = { λ r _ κ. run_lent r.ptr r.items κ };
}

unsafe impl Send for Run {}

unsafe impl Sync for Run {}

impl Run {
    ghost use Rattle.exchange_arena.specs.Run.{IsRun};

    pub(crate) fn cut(self, at: usize) -> (Run, Run)
        requires { (self.items ≡ []) × (at ≤ self.room) }
        ensures { IsRun result.0 self.base self.start at []
            × IsRun result.1 self.base (self.start + at) (self.room - at) [] }
    {
        let Run { ptr } = self;
        let low = Run { ptr };
        let high = Run {
            ptr: unsafe { ptr.add(at) },
        };
        (low, high)
    }

    // The words of both are forgotten.
    pub(crate) fn join(self, other: Run) -> Run
        requires { (other.base ≡ self.base) × (other.start ≡ self.start + self.room)
            × ((self.room + other.room) * 8 < 2 ^ 63) }
        ensures { IsRun result self.base self.start (self.room + other.room) [] }
    {
        let Run { ptr } = self;
        let Run { ptr: _ } = other;
        Run { ptr }
    }

    // Forgets the words, so nothing is written.
    pub(crate) fn clear(&mut self)
        ensures { IsRun self.new self.old.base self.old.start self.old.room [] }
    {}

    pub(crate) fn push(&mut self, len: usize, word: u64)
        requires { (len ≡ length self.old.items) × (len < self.old.room) }
        ensures { IsRun self.new self.old.base self.old.start self.old.room (self.old.items ++ word ∷ []) }
    {
        unsafe { self.ptr.add(len).write(word) }
    }

    // Many words at once, since a store for each word costs several times as much.
    pub(crate) fn push_chunk<const N: usize>(&mut self, len: usize, chunk: [u64; N])
        requires { (len ≡ length self.old.items) × (len + N ≤ self.old.room) }
        ensures { IsRun self.new self.old.base self.old.start self.old.room (self.old.items ++ chunk.entry) }
    {
        unsafe { (self.ptr.add(len) as *mut [u64; N]).write(chunk) }
    }

    // Writes as many chunks as there are, and gives where it ended and the words that are left.
    fn push_chunks<'a, const N: usize>(
        &mut self,
        len: usize,
        words: &'a [u64],
    ) -> (usize, &'a [u64])
        requires len { len ≡ length self.old.items }
        requires room { len + length words.now ≤ self.old.room }
        requires chunk { (0 < N) × (N ≤ 64) }
        ensures run { IsRun self.new self.old.base self.old.start self.old.room self.new.items }
        ensures len { result.0 ≡ length self.new.items }
        ensures room { result.0 + length result.1.now ≤ self.old.room }
        ensures written { self.new.items ++ result.1.now ≡ self.old.items ++ words.now }
    {
        let mut at = len;
        let mut rest = words;
        while let Some((chunk, after)) = rest.split_first_chunk::<N>() {
            self.push_chunk(at, *chunk);
            at += N;
            rest = after;
        }
        (at, rest)
    }

    pub(crate) fn append(&mut self, len: usize, words: &[u64])
        requires len { len ≡ length self.old.items }
        requires room { len + length words.now ≤ self.old.room }
        ensures written { IsRun self.new self.old.base self.old.start self.old.room (self.old.items ++ words.now) }
    {
        let (at, rest) = self.push_chunks::<64>(len, words);
        let (mut at, few) = self.push_chunks::<8>(at, rest);
        for word in few {
            self.push(at, *word);
            at += 1;
        }
    }

    pub(crate) fn words(&self, len: usize) -> &[u64]
        requires { len ≡ length self.now.items }
        ensures { result.now ≡ self.now.items }
    {
        unsafe { std::slice::from_raw_parts(self.ptr, len) }
    }
}
