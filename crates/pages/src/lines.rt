//! Lines of facts that are put one behind the other, of which the first and the last bytes are kept.

ghost use Rattle.std.specs.Prelude.{◌≡◌, ◌≤◌, ◌+◌, ◌-◌, ◌++◌, List, [], IfOk, OnOk, false, length, nat_le, nat_lt, take, true, ℕ};
ghost use Rattle.pages.specs.Cut.{IsCut, gap_end as end_of_gap, room};
ghost use Rattle.pages.specs.Facts.{BeginsLine, line_count as lines_in};
ghost use Rattle.pages.specs.Kept.{Holds};

use crate::cut::{ROOM, front, tail};
use crate::facts::line_count;
use crate::first_lines::FirstLines;
use crate::line_end::size_of_lines;
use std::alloc::{AllocError, Global};

// How many of the last bytes there may be before some are given back.
const MOST: usize = 3_584_000;

/// The first and the last bytes of some lines, as many as could stand in a page whatever comes behind: of a text of any length it takes
/// a few MiB.
#[derive(Drop)]
pub(crate) struct KeptLines {
    /// The first ones, as many as a page has room for.
    pub(crate) first: Vec<u8>,
    /// The last ones, more than a page has room for, or all.
    pub(crate) last: Vec<u8>,
    /// How many stand before the last ones; or fewer, but more than a page has room for.
    pub(crate) before: usize,
    /// How many lines end.
    pub(crate) count: usize,
}

/// Which of the bytes that are kept stand in a page.
#[derive(Clone, Copy)]
pub(crate) struct Kept {
    /// How many of the first ones.
    pub(crate) front: usize,
    /// Where they begin in the last ones.
    pub(crate) back: usize,
}

/// Puts bytes behind the first ones, as far as there is room.
pub(crate) fn push_first(first: &mut Vec<u8>, bytes: &[u8]) -> Result<(), AllocError>
    ensures { OnOk result ((text : List ℕ) → first.old.items ≡ take room text → first.new.items ≡ take room (text ++ bytes.now)) }
{
    let wanted = ROOM.saturating_sub(first.len());
    let (some, _) = bytes.split_at(wanted.min(bytes.len()));
    first.extend_from_slice(some)?;
    Ok(())
}

// The number of the last statement before so many lines, of which one is that of the outcome; `last` is that of the last of all.
fn told_before(lines: &[u8], last: usize) -> usize
    ensures { result ≡ last - (lines_in lines.now - 1) }
{
    let told = line_count(lines).saturating_sub(1);
    last.saturating_sub(told)
}

impl KeptLines {
    /// No lines.
    #[tactic(auto, using(crate::proofs::KeptTexts::none_held))]
    pub(crate) fn new(alloc: Global) -> KeptLines
        ensures { Holds result [] }
    {
        KeptLines {
            first: Vec::new(alloc),
            last: Vec::new(alloc),
            before: 0,
            count: 0,
        }
    }

    // Puts bytes behind the others.
    fn put(&mut self, bytes: &[u8]) -> Result<(), AllocError>
        ensures { OnOk result ((text : List ℕ) → Holds self.old text → Holds self.new (text ++ bytes.now)) }
    {
        let Some(count) = self.count.checked_add(line_count(bytes)) else {
            return Err(AllocError);
        };
        push_first(&mut self.first, bytes)?;
        self.last.extend_from_slice(bytes)?;
        self.count = count;
        Ok(())
    }

    // Gives back what is before the last bytes, where these have grown.
    fn trim(&mut self, alloc: Global) -> Result<(), AllocError>
        ensures { OnOk result ((text : List ℕ) → Holds self.old text → Holds self.new text) }
    {
        let len = self.last.len();
        if len <= MOST {
            return Ok(());
        }
        let over = len - (ROOM + 1);
        let Some(before) = self.before.checked_add(over) else {
            return Err(AllocError);
        };
        let (_, kept) = self.last.split_at(over);
        let last = Vec::from_slice(alloc, kept)?;
        self.last = last;
        self.before = before;
        Ok(())
    }

    /// Puts lines behind the others. `AllocError`: memory was refused, or there are more bytes than can be counted; what is kept is of no
    /// use then.
    pub(crate) fn push(&mut self, alloc: Global, bytes: &[u8]) -> Result<(), AllocError>
        ensures { OnOk result ((text : List ℕ) → Holds self.old text → Holds self.new (text ++ bytes.now)) }
    {
        self.put(bytes)?;
        self.trim(alloc)
    }

    // Puts lines before these, of which all bytes are kept.
    fn all_behind(&self, alloc: Global, head: &[u8]) -> Result<KeptLines, AllocError>
        requires all { self.now.before ≡ 0 }
        ensures { IfOk result (λ lines. (text : List ℕ) → Holds self.now text → Holds lines (head.now ++ text)) }
    {
        let mut lines = KeptLines::new(alloc);
        lines.push(alloc, head)?;
        lines.push(alloc, self.last.as_slice())?;
        Ok(lines)
    }

    // Puts lines before these.
    fn some_behind(self, alloc: Global, head: &[u8]) -> Result<KeptLines, AllocError>
        requires some { 1 ≤ self.before }
        ensures { IfOk result (λ lines. (text : List ℕ) → Holds self text → Holds lines (head.now ++ text)) }
    {
        let Some(before) = self.before.checked_add(head.len()) else {
            return Err(AllocError);
        };
        let Some(count) = self.count.checked_add(line_count(head)) else {
            return Err(AllocError);
        };
        let mut first = Vec::new(alloc);
        push_first(&mut first, head)?;
        push_first(&mut first, self.first.as_slice())?;
        Ok(KeptLines {
            first,
            last: self.last,
            before,
            count,
        })
    }

    /// These lines behind others. `AllocError`: memory was refused, or there are more bytes than can be counted.
    pub(crate) fn behind(self, alloc: Global, head: &[u8]) -> Result<KeptLines, AllocError>
        ensures { IfOk result (λ lines. (text : List ℕ) → Holds self text → Holds lines (head.now ++ text)) }
    {
        if self.before == 0 {
            self.all_behind(alloc, head)
        } else {
            self.some_behind(alloc, head)
        }
    }

    /// These lines behind others, so many, which aren't kept; these are the first ones of all. `AllocError`: there are more bytes than can
    /// be counted, or of these lines no more than a page has room for. More are always kept: each has what it is counted for.
    pub(crate) fn behind_some(self, first: FirstLines, left: usize) -> Result<KeptLines, AllocError>
        ensures { IfOk result (λ lines. (head text : List ℕ) → Holds self text → first.bytes.items ≡ take room (head ++ text) →
            first.count ≡ lines_in (head ++ text) → left ≡ lines_in head → BeginsLine head (length head) → Holds lines (head ++ text)) }
    {
        if self.last.len() <= ROOM {
            return Err(AllocError);
        }
        let size = size_of_lines(&first.bytes, left);
        let Some(before) = self.before.checked_add(size) else {
            return Err(AllocError);
        };
        Ok(KeptLines {
            first: first.bytes,
            last: self.last,
            before,
            count: first.count,
        })
    }

    // How many of the first bytes there are before a place of the last ones.
    fn first_before(&self, at: usize) -> usize
        ensures below { result ≤ self.now.before + at }
        ensures inside { result ≤ length self.now.first.items }
        ensures most { (n : ℕ) → n ≤ self.now.before + at → n ≤ length self.now.first.items → n ≤ result }
    {
        let first = self.first.len();
        match self.before.checked_add(at) {
            Some(back) => { if back < first { back } else { first } }
            None => first,
        }
    }

    /// Which lines stand in their page: all, if they have room, and else the last ones, that of the outcome among them, and as many of
    /// the first.
    pub(crate) fn kept(&self) -> Kept
        // All lines are kept where they have room, else the longest end within half the room, or the last line alone,
        // and the longest front beside it.
        ensures cut { (text : List ℕ) → (h : Holds self.now text) → IsCut text result.front (h.offset + result.back) }
        ensures front_within { result.front ≤ length self.now.first.items }
        ensures back_within { result.back ≤ length self.now.last.items }
    {
        let last = tail(self.last.as_slice());
        let most = self.first_before(last.at);
        Kept {
            front: front(self.first.as_slice(), most, last.size),
            back: last.at,
        }
    }

    /// Whether some lines are left out.
    pub(crate) fn has_gap(&self, kept: Kept) -> bool
        ensures gap { result ≡ nat_lt kept.front (self.now.before + kept.back) }
        ensures all { result ≡ false → nat_le (self.now.before + kept.back) kept.front ≡ true }
        ensures some { result ≡ true → nat_le (self.now.before + kept.back) kept.front ≡ false }
    {
        match self.before.checked_add(kept.back) {
            Some(back) => kept.front < back,
            None => true,
        }
    }

    /// The number of the last statement that is left out, if some are; `last` is that of the last one of which facts tell, whose line
    /// stands before that of the outcome.
    #[tactic(auto, using(crate::proofs::CutOfKept::gap_none, crate::proofs::CutOfKept::gap_some))]
    pub(crate) fn gap_end(&self, kept: Kept, last: usize) -> Option<usize>
        requires back_within { kept.back ≤ length self.now.last.items }
        ensures { (text : List ℕ) → (h : Holds self.now text) → kept.front ≤ length self.now.first.items →
            result ≡ end_of_gap text kept.front (h.offset + kept.back) last }
    {
        if !self.has_gap(kept) {
            return None;
        }
        let (_, lines) = self.last.as_slice().split_at(kept.back);
        Some(told_before(lines, last))
    }
}
