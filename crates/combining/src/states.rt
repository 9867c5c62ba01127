//! What is known of asks: whether each was made more than once, and the value that came for it.

ghost use Rattle.std.specs.Prelude.{◌≡◌, ◌≤◌, ◌<◌, ◌++◌, ◌∷◌, [], ℕ, List, Bool, true, false, pos, length, get_or, set, map, take};
ghost use Rattle.std.specs.Prelude.{IfOk, vec_capacity};
ghost use Rattle.std.specs.Int.{cast_signed, w64};
ghost use Rattle.combining.specs.Asked.{unasked, both, worded, value_there};

use std::alloc::{AllocError, Global};
use std::marker::Model;
use std::mem;

/// What is known of asks, in their order. Marks and values stand in lists of their own, and a value is only written once it came: so to
/// hold an ask is to write one mark, and where there is one module, the words of its reply are copied one behind the other.
#[derive(Drop)]
pub(crate) struct AskStates {
    marks: Vec<bool>,
    came: Vec<i64>,
}

impl Model for AskStates {
    ghost use Rattle.std.specs.Prelude.{◌≡◌, ◌≤◌, vec_capacity, length};
    ghost use Rattle.combining.specs.Asked.{AllAsked, both};

    ghost Value = { AllAsked };

    ghost view = { λ x. record { items = both x.marks.items x.came.items; room = vec_capacity x.marks } };

    ghost invariant = { λ x. (vec_capacity x.came ≡ vec_capacity x.marks) × (length x.came.items ≤ length x.marks.items) };
}

// Adds values of 0 up to so many.
fn fill_up(came: &mut Vec<i64>, count: usize)
    requires few { length came.old.items ≤ count }
    requires room { count ≤ vec_capacity came.old }
    ensures same { (marks : List Bool) → both marks came.new.items ≡ both marks came.old.items }
    ensures count { length came.new.items ≡ count }
    ensures room { vec_capacity came.new ≡ vec_capacity came.old }
{
    while came.len() < count {
        came.push_reserved(0);
    }
}

// The values that so many words are, in an empty list. It is passed by value, so that its length stays in a register over the loop.
fn values_of(words: &[u64], count: usize, mut came: Vec<i64>) -> Vec<i64>
    requires none { came.items ≡ [] }
    requires words { count ≤ length words.now }
    requires room { count ≤ vec_capacity came }
    ensures values { result.items ≡ map (cast_signed w64) (take count words.now) }
    ensures room { vec_capacity result ≡ vec_capacity came }
{
    for i in 0..count {
        came.push_reserved(words[i].cast_signed());
    }
    came
}

impl AskStates {
    /// Room for so many asks.
    pub(crate) fn with_room(alloc: Global, room: usize) -> Result<AskStates, AllocError>
        ensures { IfOk result (λ x. (x.items ≡ []) × (x.room ≡ room)) }
    {
        let marks = Vec::with_capacity(alloc, room)?;
        let came = Vec::with_capacity(alloc, room)?;
        Ok(AskStates { marks, came })
    }

    /// The states that are taken out of their place, to be put back.
    #[inline(always)]
    pub(crate) fn taken_out(&mut self) -> AskStates
        ensures { result ≡ self.old }
    {
        let no_marks = Vec::new(*self.marks.allocator());
        let none_came = Vec::new(*self.came.allocator());
        let marks = mem::replace(&mut self.marks, no_marks);
        let came = mem::replace(&mut self.came, none_came);
        AskStates { marks, came }
    }

    /// Which asks were made more than once.
    #[inline(always)]
    pub(crate) fn marks(&self) -> &[bool]
        ensures length { length result.now ≡ length self.now.items }
        ensures each { (i : ℕ) → get_or result.now i false ≡ (get_or self.now.items i unasked).again }
    {
        self.marks.as_slice()
    }

    /// The values that came, up to the last.
    #[inline(always)]
    pub(crate) fn came(&self) -> &[i64]
        ensures few { length result.now ≤ length self.now.items }
        ensures each { (i : ℕ) → get_or result.now i (pos 0) ≡ value_there self.now.items i }
    {
        self.came.as_slice()
    }

    /// The value at a place, and 0 where none came.
    #[inline(always)]
    pub(crate) fn value(&self, place: usize) -> i64
        ensures { result ≡ value_there self.now.items place }
    {
        if place < self.came.len() {
            self.came[place]
        } else {
            0
        }
    }

    /// One more ask, made once.
    #[inline(always)]
    pub(crate) fn push(&mut self)
        requires { length self.old.items < self.old.room }
        ensures items { self.new.items ≡ self.old.items ++ unasked ∷ [] }
        ensures room { self.new.room ≡ self.old.room }
    {
        self.marks.push_reserved(false);
    }

    /// The ask at a place was made again.
    #[inline(always)]
    pub(crate) fn mark(&mut self, place: usize)
        requires { place < length self.old.items }
        ensures items { self.new.items ≡ set self.old.items place
            (record { again = true; value = (get_or self.old.items place unasked).value }) }
        ensures room { self.new.room ≡ self.old.room }
    {
        self.marks[place] = true;
    }

    /// The value of the ask at a place came.
    #[inline(always)]
    pub(crate) fn put(&mut self, place: usize, value: i64)
        requires { place < length self.old.items }
        ensures items { self.new.items ≡ set self.old.items place
            (record { again = (get_or self.old.items place unasked).again; value = value }) }
        ensures room { self.new.room ≡ self.old.room }
    {
        if place == self.came.len() {
            self.came.push_reserved(value);
        } else if place < self.came.len() {
            self.came[place] = value;
        } else {
            fill_up(&mut self.came, place);
            self.came.push_reserved(value);
        }
    }

    /// The values of the first asks came, as words.
    pub(crate) fn put_words(&mut self, words: &[u64])
        ensures items { self.new.items ≡ worded words.now self.old.items }
        ensures room { self.new.room ≡ self.old.room }
    {
        let count = words.len().min(self.marks.len());
        if self.came.is_empty() {
            let empty = Vec::new(*self.came.allocator());
            let came = mem::replace(&mut self.came, empty);
            self.came = values_of(words, count, came);
            return;
        }
        for i in 0..count {
            self.put(i, words[i].cast_signed());
        }
    }

    /// No asks any more.
    pub(crate) fn clear(&mut self)
        ensures items { self.new.items ≡ [] }
        ensures room { self.new.room ≡ self.old.room }
    {
        self.marks.clear();
        self.came.clear();
    }
}
