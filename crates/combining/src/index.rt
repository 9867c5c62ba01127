//! Keys that are held, each once, and a table that finds them.
ghost use Rattle.std.specs.Prelude.{◌≡◌, ◌<◌, ◌++◌, [], ◌∷◌, length, IfOk, vec_capacity, ◌^◌};
ghost use Rattle.std.specs.Prelude.{◌≤◌, ◌+◌, ℕ, take};
ghost use Rattle.combining.specs.Places.{place_of, Held, AreApart};
ghost use Rattle.combining.specs.Columns.{AreBelow};
ghost use Rattle.combining.specs.Compact.{held_at};
ghost use Rattle.combining.specs.Held.{paired, held_after};
ghost use Rattle.combining.specs.Asked.{ask_at};
ghost use Rattle.combining.specs.Adding.{by_read, asked_after};
ghost use Rattle.combining.specs.Writing.{first_writes};

use crate::ascending::append_ascending;
use crate::compact::Compact;
use crate::linking::{link, link_all, linked_place, place_from};
use crate::states::AskStates;
use crate::writes::{Writes, append_writes};
use std::alloc::{AllocError, Global};
use std::marker::Model;
use std::mem;
use write_rules::WriteRule;

/// Keys in the order in which they were first held. As long as each is greater than those before it, the last one tells whether
/// another is held, and no table is kept; the first that isn't has all of them linked.
#[derive(Drop)]
pub struct Index {
    keys: Vec<u32>,
    links: Vec<u32>,
    heads: Vec<u32>,
    mask: u32,
}

impl Model for Index {
    ghost use Rattle.std.specs.Prelude.{◌≡◌, ◌<◌, ◌^◌, vec_capacity};
    ghost use Rattle.combining.specs.Places.{Held, IsIndexed};

    ghost Value = { Held };

    ghost view = { λ x. record { keys = x.keys.items; room = vec_capacity x.keys } };

    ghost invariant = { λ x. (vec_capacity x.links ≡ vec_capacity x.keys) × (vec_capacity x.keys < 2 ^ 31)
        × IsIndexed x.mask x.keys.items x.links.items x.heads.items };
}

impl Index {
    /// An index for so many keys, with a table of at least so many heads: where keys are more, their chains are longer.
    pub fn with_room(alloc: Global, room: usize, heads: u32) -> Result<Index, AllocError>
        requires room { room < 2 ^ 30 }
        requires heads { heads ≤ 2 ^ 30 }
        ensures ok { IfOk result (λ x. (x.keys ≡ []) × (x.room ≡ room)) }
    {
        let places = heads.next_power_of_two();
        let keys = Vec::with_capacity(alloc, room)?;
        let links = Vec::with_capacity(alloc, room)?;
        let heads = vec![in alloc; 0; places as usize]?;
        Ok(Index {
            keys,
            links,
            heads,
            mask: places - 1,
        })
    }

    /// How many keys are held.
    pub fn len(&self) -> usize
        ensures length { result ≡ length self.now.keys }
    {
        self.keys.len()
    }

    /// For how many keys there is room.
    pub fn room(&self) -> usize
        ensures room { result ≡ self.now.room }
    {
        self.keys.capacity()
    }

    /// The keys, in the order first held.
    pub fn keys(&self) -> &[u32]
        ensures keys { result.now ≡ self.now.keys }
        ensures apart { AreApart result.now }
    {
        self.keys.as_slice()
    }

    /// Holds nothing any more. The heads stay: none of them is believed.
    pub fn clear(&mut self)
        ensures none { self.new.keys ≡ [] }
        ensures room { self.new.room ≡ self.old.room }
    {
        self.keys.clear();
        self.links.clear();
    }

    /// The key's place, or the number of keys.
    pub fn find(&self, key: u32) -> usize
        ensures place { result ≡ place_of key self.now.keys }
    {
        let linked = self.links.len();
        let i = linked_place(
            self.mask,
            &self.keys[..linked],
            self.links.as_slice(),
            self.heads.as_slice(),
            key,
        );
        if i < linked {
            return i;
        }
        place_from(self.keys.as_slice(), linked, key)
    }

    /// Holds a key, unless it is held. Its place.
    #[inline(always)]
    pub fn hold(&mut self, key: u32) -> usize
        requires room { length self.old.keys < self.old.room }
        ensures place { result ≡ place_of key self.old.keys }
        ensures held { result < length self.old.keys → self.new.keys ≡ self.old.keys }
        ensures new { result ≡ length self.old.keys → self.new.keys ≡ self.old.keys ++ key ∷ [] }
        ensures room { self.new.room ≡ self.old.room }
    {
        let n = self.keys.len();
        if n == 0 {
            self.keys.push_reserved(key);
            return n;
        }
        if self.links.len() < n {
            let last = self.keys[n - 1];
            if last < key {
                self.keys.push_reserved(key);
                return n;
            }
            if last == key {
                return n - 1;
            }
        }
        link_all(
            self.mask,
            self.keys.as_slice(),
            &mut self.links,
            self.heads.as_mut_slice(),
        );
        let i = linked_place(
            self.mask,
            self.keys.as_slice(),
            self.links.as_slice(),
            self.heads.as_slice(),
            key,
        );
        if i == n {
            self.keys.push_reserved(key);
            link(
                self.mask,
                self.keys.as_slice(),
                &mut self.links,
                self.heads.as_mut_slice(),
            );
        }
        i
    }

    /// Holds the asks by a read for the first of some cells, whose answers are in `asked`, as `append_ascending` does. Says for how many,
    /// and gives that list back. For none where keys are linked.
    pub(crate) fn hold_ascending(
        &mut self,
        ordinal: u32,
        cells: &[Option<u32>],
        asked: AskStates,
    ) -> (AskStates, usize)
        requires long { length asked.items ≡ length self.old.keys }
        requires room { length self.old.keys + length cells.now ≤ self.old.room }
        requires rooms { asked.room ≡ self.old.room }
        requires ordinal { ordinal < 8 }
        requires below { AreBelow (2 ^ 20) cells.now }
        ensures held { paired ask_at self.new.keys result.0.items
            ≡ asked_after (by_read ordinal (take result.1 cells.now)) (paired ask_at self.old.keys asked.items) }
        ensures long { length result.0.items ≡ length self.new.keys }
        ensures few { result.1 ≤ length cells.now }
        ensures most { length self.new.keys ≤ length self.old.keys + result.1 }
        ensures room { self.new.room ≡ self.old.room }
        ensures asked { result.0.room ≡ asked.room }
    {
        if !self.links.is_empty() {
            return (asked, 0);
        }
        let empty = Vec::new(*self.keys.allocator());
        let keys = mem::replace(&mut self.keys, empty);
        let (keys, asked, n) = append_ascending(keys, asked, ordinal, cells);
        self.keys = keys;
        (asked, n)
    }

    /// Holds the writes of the first processors of a row, whose entries are in `entries`, as `append_writes` does. Says of how many
    /// processors, and gives that list back. Of none where keys are linked.
    pub(crate) fn hold_writes<R: WriteRule, W: Writes>(
        &mut self,
        rule: &R,
        writes: &W,
        count: usize,
        entries: Vec<Compact>,
    ) -> (Vec<Compact>, usize)
        requires row { (j : ℕ) → j < count → W.has writes.now j }
        requires long { length entries.items ≡ length self.old.keys }
        requires room { length self.old.keys + count ≤ self.old.room }
        requires rooms { vec_capacity entries ≡ self.old.room }
        ensures held { paired held_at self.new.keys result.0.items ≡ held_after (R.WriteRule.rule rule.now)
            (first_writes (W.number writes.now) (W.written writes.now) result.1) (paired held_at self.old.keys entries.items) }
        ensures long { length result.0.items ≡ length self.new.keys }
        ensures few { result.1 ≤ count }
        ensures most { length self.new.keys ≤ length self.old.keys + result.1 }
        ensures room { self.new.room ≡ self.old.room }
        ensures entries { vec_capacity result.0 ≡ vec_capacity entries }
    {
        if !self.links.is_empty() {
            return (entries, 0);
        }
        let empty = Vec::new(*self.keys.allocator());
        let keys = mem::replace(&mut self.keys, empty);
        let (keys, entries, n) = append_writes(rule, writes, count, keys, entries);
        self.keys = keys;
        (entries, n)
    }
}
