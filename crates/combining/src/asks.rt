//! Held asks.

ghost use Rattle.std.specs.Prelude.{◌≡◌, ◌≤◌, ◌<◌, ◌+◌, ◌%◌, ◌++◌, ◌^◌, ◌&&◌, [], ◌∷◌, length, IfOk, IfSome, None, get_or, take, drop};
ghost use Rattle.std.specs.Prelude.{nat_lt};
ghost use Rattle.std.specs.Prelude.{vec_capacity, map as each};
ghost use Rattle.std.specs.Int.{cast_signed, w64};
ghost use Rattle.std.specs.List.{AllByRecursion};
ghost use Rattle.std.proofs.Common.{eqb};
ghost use Rattle.superstep_machine.specs.Words.{ask_word, ask_words};
ghost use Rattle.combining.specs.AllModules.{HasRoomFor, HasGot};
ghost use Rattle.combining.specs.Adding.{by_read, asked_after};
ghost use Rattle.combining.specs.Columns.{AreBelow, HaveCome};
ghost use Rattle.combining.specs.Came.{all_replied};
ghost use Rattle.combining.specs.Held.{paired};
ghost use Rattle.combining.specs.Asked.{ask, ask_at, asks_for, value_for, replied, IsAskBelow, place_held, value_held};

use crate::index::Index;
use crate::near::values_near;
use crate::runs::{add_ask_run, keep_run};
use crate::single::{append_asks, keep_in_order, taken_out};
use crate::states::AskStates;
use crate::words::{ask_key, cell_of, write_ask};
use address_map::AddressMap;
use std::alloc::{AllocError, Global};
use std::marker::Model;

// Whether the next word of a reply is for this ask.
#[inline(always)]
fn is_due<M: AddressMap>(map: &M, part: u32, key: u32, words: &[u64], n: usize) -> bool
    requires { key % 2 ^ 20 < (M.shape map.now).count }
    ensures { result ≡ (nat_lt n (length words.now) && eqb ((M.shape map.now).part (key % 2 ^ 20)) part) }
{
    n < words.len() && map.place(cell_of(key)).0 == part
}

// Keeps a reply's words at the asks that they are for.
fn keep<M: AddressMap>(map: &M, part: u32, words: &[u64], keys: &[u32], asked: &mut AskStates)
    requires cells { AllByRecursion (IsAskBelow (M.shape map.now).count) (paired ask_at keys.now asked.old.items) }
    requires long { length asked.old.items ≡ length keys.now }
    ensures held { paired ask_at keys.now asked.new.items ≡ replied (M.shape map.now).part part words.now
        (paired ask_at keys.now asked.old.items) }
    ensures length { length asked.new.items ≡ length asked.old.items }
    ensures room { asked.new.room ≡ asked.old.room }
{
    let mut n = 0;
    for i in 0..keys.len() {
        if is_due(map, part, keys[i], words, n) {
            asked.put(i, words[n].cast_signed());
            n += 1;
        }
    }
}

// Keeps the words of all modules' replies at the asks that they are for.
fn keep_all<M: AddressMap>(map: &M, replies: &[&[u64]], keys: &[u32], asked: &mut AskStates)
    requires cells { AllByRecursion (IsAskBelow (M.shape map.now).count) (paired ask_at keys.now asked.old.items) }
    requires long { length asked.old.items ≡ length keys.now }
    requires modules { length replies.now ≡ (M.shape map.now).parts }
    ensures held { paired ask_at keys.now asked.new.items ≡ all_replied (M.shape map.now).part 0 (each (λ x. x.now) replies.now)
        (paired ask_at keys.now asked.old.items) }
    ensures length { length asked.new.items ≡ length asked.old.items }
    ensures room { asked.new.room ≡ asked.old.room }
{
    let mut taken = [0; 32];
    let mut i = 0;
    'asks: while i < keys.len() {
        let (home, _offset) = map.place(cell_of(keys[i]));
        let at = home as usize;
        let (next, n) = keep_run(map, home, replies[at], taken[at], keys, i, asked);
        taken[at] = n;
        i = next;
    }
}

/// The asks that a worker holds, by read and cell, in the order in which they were first held, and the values that came for them.
#[derive(Drop)]
pub struct Asks {
    index: Index,
    asked: AskStates,
}

impl Model for Asks {
    ghost use Rattle.std.specs.Prelude.{◌≡◌, length};
    ghost use Rattle.combining.specs.Held.{paired};
    ghost use Rattle.combining.specs.Asked.{HeldAsks, ask_at};

    ghost Value = { HeldAsks };

    ghost view = { λ x. record { held = paired ask_at x.index.keys x.asked.items; room = x.index.room } };

    ghost invariant = { λ x. (x.asked.room ≡ x.index.room) × (length x.asked.items ≡ length x.index.keys) };
}

impl Asks {
    /// Room for so many asks: no later call takes memory. Eight reads may be held, and hardly ever are more than two, so the table
    /// of their cells has a quarter.
    pub fn with_room(alloc: Global, room: usize) -> Result<Asks, AllocError>
        requires { room < 2 ^ 30 }
        ensures ok { IfOk result (λ x. (x.held ≡ []) × (x.room ≡ room)) }
    {
        let index = Index::with_room(alloc, room, room as u32 / 4)?;
        let asked = AskStates::with_room(alloc, room)?;
        Ok(Asks { index, asked })
    }

    /// How many asks are held.
    pub fn len(&self) -> usize
        ensures length { result ≡ length self.now.held }
    {
        self.index.len()
    }

    /// For how many there is room.
    pub fn room(&self) -> usize
        ensures room { result ≡ self.now.room }
    {
        self.index.room()
    }

    /// Holds an ask for a cell by a read of that number, or marks that it was made again. Says at which
    /// place it is held, for `value_at`: no later ask or reply moves it.
    #[inline(always)]
    pub fn add(&mut self, ordinal: u32, cell: u32) -> usize
        requires room { length self.old.held < self.old.room }
        requires ordinal { ordinal < 8 }
        requires cell { cell < 2 ^ 20 }
        // The ask is held behind the rest, or is marked where it was made before.
        ensures held { self.new.held ≡ ask ordinal cell self.old.held }
        // The answer is the place at which the ask is held.
        ensures place { result ≡ place_held ordinal cell self.old.held }
        ensures room { self.new.room ≡ self.old.room }
    {
        let key = ask_key(ordinal, cell);
        let held = self.index.len();
        let i = self.index.hold(key);
        if i < held {
            self.asked.mark(i);
        } else {
            self.asked.push();
        }
        i
    }

    /// Holds the asks by a read of that number for the first of some cells, one after the other, as long as their numbers and
    /// those of what is held ascend. Says for how many.
    pub fn add_ascending(&mut self, ordinal: u32, cells: &[Option<u32>]) -> usize
        requires room { length self.old.held + length cells.now ≤ self.old.room }
        requires ordinal { ordinal < 8 }
        requires below { AreBelow (2 ^ 20) cells.now }
        // The asks for as many cells of the column as are told are held as if each were made by itself.
        ensures held { self.new.held ≡ asked_after (by_read ordinal (take result cells.now)) self.old.held }
        ensures few { result ≤ length cells.now }
        ensures most { length self.new.held ≤ length self.old.held + result }
        ensures room { self.new.room ≡ self.old.room }
    {
        let asked = self.asked.taken_out();
        let (asked, n) = self.index.hold_ascending(ordinal, cells, asked);
        self.asked = asked;
        n
    }

    /// Puts the values that came for some cells, by a read of that number, at their places. A cell is first sought at the place behind the
    /// last that was found, from `likely` on: where the cells are those of the asks, in order, it stands there. Says what is likely next.
    pub fn take_values(
        &self,
        likely: usize,
        ordinal: u32,
        cells: &[Option<u32>],
        values: &mut [i64],
    ) -> usize
        requires ordinal { ordinal < 8 }
        requires below { AreBelow (2 ^ 20) cells.now }
        requires values { length cells.now ≤ length values.old }
        // Each cell of the column gets the value that came for it by a read of that number.
        ensures each { HaveCome (λ cell. value_for ordinal cell self.now.held) cells.now values.new }
        ensures count { length values.new ≡ length values.old }
    {
        values_near(
            &self.index,
            self.index.keys(),
            self.asked.came(),
            likely,
            ordinal,
            cells,
            values,
        )
    }

    /// Writes the words of the asks for one module, and says how many they are. What is behind them stays.
    pub fn pack<M: AddressMap>(&self, map: &M, part: u32, out: &mut [u64]) -> usize
        requires cells { AllByRecursion (IsAskBelow (M.shape map.now).count) self.now.held }
        requires long { length (ask_words (asks_for (M.shape map.now).part part self.now.held)) ≤ length out.old }
        // The words are the definition's words of the asks that are held for the module.
        ensures words { take result out.new ≡ ask_words (asks_for (M.shape map.now).part part self.now.held) }
        ensures count { result ≡ length (ask_words (asks_for (M.shape map.now).part part self.now.held)) }
        ensures rest { drop result out.new ≡ drop result out.old }
        ensures length { length out.new ≡ length out.old }
    {
        let keys = self.index.keys();
        let mut n = 0;
        let marks = self.asked.marks();
        for i in 0..keys.len() {
            let key = keys[i];
            if map.place(cell_of(key)).0 == part {
                n = write_ask(out, n, key, marks[i]);
            }
        }
        n
    }

    /// Adds the words of all asks to the columns of their modules, one for each module, behind what a column holds: in one pass, to each
    /// what `pack` writes for its module.
    pub fn pack_all<M: AddressMap>(&self, map: &M, columns: &mut [Vec<u64>])
        requires cells { AllByRecursion (IsAskBelow (M.shape map.now).count) self.now.held }
        requires modules { length columns.old ≡ (M.shape map.now).parts }
        requires room { HasRoomFor (M.shape map.now).parts (λ j. ask_words (asks_for (M.shape map.now).part j self.now.held))
            (each (λ v. v.items) columns.old) (each vec_capacity columns.old) }
        // The column of each module gets, behind what it holds, the words that `pack` writes for that module.
        ensures words { HasGot (M.shape map.now).parts (λ j. ask_words (asks_for (M.shape map.now).part j self.now.held))
            (each (λ v. v.items) columns.old) (each (λ v. v.items) columns.new) }
        // Each column keeps the room that it has.
        ensures rooms { each vec_capacity columns.new ≡ each vec_capacity columns.old }
    {
        let keys = self.index.keys();
        if columns.len() == 1 {
            let list = taken_out(&mut columns[0]);
            columns[0] = append_asks(map, keys, &self.asked, list);
            return;
        }
        let mut i = 0;
        'asks: while i < keys.len() {
            let (home, _offset) = map.place(cell_of(keys[i]));
            let at = home as usize;
            i = add_ask_run(map, home, keys, &self.asked, i, &mut columns[at]);
        }
    }

    /// Keeps the words of a module's reply at the asks for it, in the order of the asks and as far as the words reach.
    pub fn take_reply<M: AddressMap>(&mut self, map: &M, part: u32, words: &[u64])
        requires cells { AllByRecursion (IsAskBelow (M.shape map.now).count) self.old.held }
        // The asks for the module get the words of its reply, in order and as far as they reach, and no ask moves.
        ensures held { self.new.held ≡ replied (M.shape map.now).part part words.now self.old.held }
        ensures room { self.new.room ≡ self.old.room }
    {
        keep(map, part, words, self.index.keys(), &mut self.asked);
    }

    /// Keeps the words of the replies of all modules, one from each, in one pass: as `take_reply` of one after the other.
    pub fn take_replies<M: AddressMap>(&mut self, map: &M, replies: &[&[u64]])
        requires cells { AllByRecursion (IsAskBelow (M.shape map.now).count) self.old.held }
        requires modules { length replies.now ≡ (M.shape map.now).parts }
        // The asks get what they get from the replies of all modules, taken one after the other.
        ensures held { self.new.held ≡ all_replied (M.shape map.now).part 0 (each (λ x. x.now) replies.now) self.old.held }
        ensures room { self.new.room ≡ self.old.room }
    {
        if replies.len() == 1 {
            keep_in_order(map, replies[0], self.index.keys(), &mut self.asked);
            return;
        }
        keep_all(map, replies, self.index.keys(), &mut self.asked);
    }

    /// The value that came for a read and a cell, and 0 where none came.
    #[inline(always)]
    pub fn value(&self, ordinal: u32, cell: u32) -> i64
        requires ordinal { ordinal < 8 }
        requires cell { cell < 2 ^ 20 }
        // The answer is the value that came for the read and the cell, or 0.
        ensures value { result ≡ value_for ordinal cell self.now.held }
    {
        self.asked.value(self.index.find(ask_key(ordinal, cell)))
    }

    /// The value that came for the ask that is held at a place, and 0 where none came.
    #[inline(always)]
    pub fn value_at(&self, place: usize) -> i64
        requires { place < length self.now.held }
        // The answer is the value that came for the ask that is held at the place.
        ensures value { result ≡ value_held self.now.held place }
    {
        self.asked.value(place)
    }

    /// Holds nothing any more.
    pub fn clear(&mut self)
        // Nothing is held any more.
        ensures none { self.new.held ≡ [] }
        ensures room { self.new.room ≡ self.old.room }
    {
        self.index.clear();
        self.asked.clear();
    }
}
