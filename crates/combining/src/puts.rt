//! Held puts.

ghost use Rattle.std.specs.Prelude.{◌≡◌, ◌≤◌, ◌<◌, ◌+◌, ◌*◌, ◌++◌, ◌^◌, [], ◌∷◌, ℕ, length, IfOk, take, drop, vec_capacity, map as each};
ghost use Rattle.std.specs.Int.{w64};
ghost use Rattle.std.specs.List.{AllByRecursion};
ghost use Rattle.superstep_machine.specs.Words.{put_words, bit, word_of, low_word, high_word};
ghost use Rattle.superstep_machine.specs.WordReading.{put_length};
ghost use Rattle.superstep_machine.specs.Fitting.{FitsPut, FitsValue};
ghost use Rattle.combining.specs.AllModules.{HasRoomFor, HasGot};
ghost use Rattle.combining.specs.Held.{put, put_at, packed_puts, held_after, IsPutBelow};
ghost use Rattle.combining.specs.Writing.{first_writes};

use crate::compact::Compact;
use crate::index::Index;
use crate::runs::add_put_run;
use crate::single::{append_puts, taken_out};
use crate::words::write_put;
use crate::writes::Writes;
use address_map::AddressMap;
use std::alloc::{AllocError, Global};
use std::marker::Model;
use std::mem;
use write_rules::WriteRule;

/// The puts that a worker holds: an entry for each cell, in the order in which the cells were first held.
#[derive(Drop)]
pub struct Puts {
    index: Index,
    entries: Vec<Compact>,
}

impl Model for Puts {
    ghost use Rattle.std.specs.Prelude.{◌≡◌, vec_capacity, length};
    ghost use Rattle.combining.specs.Held.{HeldPuts, paired};
    ghost use Rattle.combining.specs.Compact.{held_at};

    ghost Value = { HeldPuts };

    ghost view = { λ x. record { held = paired held_at x.index.keys x.entries.items; room = x.index.room } };

    ghost invariant = { λ x. (vec_capacity x.entries ≡ x.index.room) × (length x.entries.items ≡ length x.index.keys) };
}

impl Puts {
    /// Room for so many puts: no later call takes memory.
    pub fn with_room(alloc: Global, room: usize) -> Result<Puts, AllocError>
        requires { room < 2 ^ 30 }
        ensures ok { IfOk result (λ x. (x.held ≡ []) × (x.room ≡ room)) }
    {
        let index = Index::with_room(alloc, room, room as u32)?;
        let entries = Vec::with_capacity(alloc, room)?;
        Ok(Puts { index, entries })
    }

    /// How many cells are put to.
    pub fn len(&self) -> usize
        ensures length { result ≡ length self.now.held }
    {
        self.index.len()
    }

    /// For how many there is room.
    pub fn room(&self) -> usize
        ensures room { result ≡ self.now.room }
    {
        self.index.room()
    }

    /// Holds a write, joined to what is held for its cell.
    #[inline(always)]
    pub fn add<R: WriteRule>(&mut self, rule: &R, cell: u32, processor: i64, value: i64)
        requires { length self.old.held < self.old.room }
        // The write is joined to what is held for its cell, or is held behind the rest.
        ensures held { self.new.held ≡ put (R.WriteRule.rule rule.now) (record { processor = processor; cell = cell; value = value })
            self.old.held }
        ensures room { self.new.room ≡ self.old.room }
    {
        let entry = rule.single(processor, value);
        let i = self.index.hold(cell);
        if i < self.entries.len() {
            self.entries[i] = Compact::of(rule.join(self.entries[i].entry(), entry));
        } else {
            self.entries.push_reserved(Compact::of(entry));
        }
    }

    /// Holds the writes of the first processors of a row, one after the other, as long as their cells and those of what is held ascend.
    /// Says of how many processors.
    pub fn add_ascending<R: WriteRule, W: Writes>(
        &mut self,
        rule: &R,
        writes: &W,
        count: usize,
    ) -> usize
        requires row { (j : ℕ) → j < count → W.has writes.now j }
        requires room { length self.old.held + count ≤ self.old.room }
        // The writes of as many processors of the row as are told are held as if each were added by itself.
        ensures held { self.new.held ≡ held_after (R.WriteRule.rule rule.now)
            (first_writes (W.number writes.now) (W.written writes.now) result) self.old.held }
        ensures few { result ≤ count }
        ensures most { length self.new.held ≤ length self.old.held + result }
        ensures room { self.new.room ≡ self.old.room }
    {
        let empty = Vec::new(*self.entries.allocator());
        let entries = mem::replace(&mut self.entries, empty);
        let (entries, n) = self.index.hold_writes(rule, writes, count, entries);
        self.entries = entries;
        n
    }

    /// Writes the words of the puts for one module, and says how many they are. What is behind them stays.
    pub fn pack<R: WriteRule, M: AddressMap>(
        &self,
        rule: &R,
        map: &M,
        part: u32,
        out: &mut [u64],
    ) -> usize
        requires cells { AllByRecursion (IsPutBelow (M.shape map.now).count) self.now.held }
        requires fit { AllByRecursion (FitsPut (R.WriteRule.rule rule.now)) self.now.held }
        requires long { length (packed_puts (R.WriteRule.rule rule.now) (M.shape map.now).part part self.now.held) ≤ length out.old }
        // The words are the definition's words of the puts that are held for the module.
        ensures words { take result out.new ≡ packed_puts (R.WriteRule.rule rule.now) (M.shape map.now).part part self.now.held }
        ensures count { result ≡ length (packed_puts (R.WriteRule.rule rule.now) (M.shape map.now).part part self.now.held) }
        ensures rest { drop result out.new ≡ drop result out.old }
        ensures length { length out.new ≡ length out.old }
    {
        let keys = self.index.keys();
        let mut n = 0;
        for i in 0..self.entries.len() {
            let cell = keys[i];
            if map.place(cell).0 == part {
                n = write_put(rule, out, n, cell, self.entries[i].entry());
            }
        }
        n
    }

    /// Adds the words of all puts to the columns of their modules, one for each module, behind what a column holds: in one pass, to
    /// each what `pack` writes for its module.
    pub fn pack_all<R: WriteRule, M: AddressMap>(&self, rule: &R, map: &M, columns: &mut [Vec<u64>])
        requires cells { AllByRecursion (IsPutBelow (M.shape map.now).count) self.now.held }
        requires fit { AllByRecursion (FitsPut (R.WriteRule.rule rule.now)) self.now.held }
        requires modules { length columns.old ≡ (M.shape map.now).parts }
        requires room { HasRoomFor (M.shape map.now).parts (λ j. packed_puts (R.WriteRule.rule rule.now) (M.shape map.now).part j
            self.now.held) (each (λ v. v.items) columns.old) (each vec_capacity columns.old) }
        // The column of each module gets, behind what it holds, the words that `pack` writes for that module.
        ensures words { HasGot (M.shape map.now).parts (λ j. packed_puts (R.WriteRule.rule rule.now) (M.shape map.now).part j self.now.held)
            (each (λ v. v.items) columns.old) (each (λ v. v.items) columns.new) }
        // Each column keeps the room that it has.
        ensures rooms { each vec_capacity columns.new ≡ each vec_capacity columns.old }
    {
        let keys = self.index.keys();
        if columns.len() == 1 {
            let list = taken_out(&mut columns[0]);
            columns[0] = append_puts(rule, map, keys, &self.entries, list);
            return;
        }
        let mut i = 0;
        'puts: while i < self.entries.len() {
            let (home, _offset) = map.place(keys[i]);
            let at = home as usize;
            i = add_put_run(rule, map, home, keys, &self.entries, i, &mut columns[at]);
        }
    }

    /// Holds nothing any more.
    pub fn clear(&mut self)
        // Nothing is held any more.
        ensures none { self.new.held ≡ [] }
        ensures room { self.new.room ≡ self.old.room }
    {
        self.index.clear();
        self.entries.clear();
    }
}
