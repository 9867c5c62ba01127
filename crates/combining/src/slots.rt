//! Places for the entries of a module's cells.

ghost use Rattle.std.specs.Prelude.{◌≡◌, ◌≤◌, ◌<◌, ℕ, length, IfOk, Some, None, set, vec_capacity};
ghost use Rattle.combining.specs.Compact.{places_with};
ghost use Rattle.combining.specs.Gathering.{slot};

use crate::compact::Compact;
use std::alloc::{AllocError, Global};
use std::marker::Model;
use write_rules::Entry;

/// A place for the entry of each cell of a module, by offset. The list is as long as the furthest cell that got one asks for: memory
/// behind it isn't touched.
#[derive(Drop)]
pub(crate) struct Slots {
    slots: Vec<Compact>,
    size: usize,
}

impl Model for Slots {
    ghost use Rattle.std.specs.Prelude.{◌≡◌, List, Option, vec_capacity};
    ghost use Rattle.write_rules.specs.declared.entry.Entry.{Entry};
    ghost use Rattle.combining.specs.Compact.{places_with};

    ghost Value = { List (Option Entry) };

    ghost view = { λ x. places_with x.size x.slots.items };

    ghost invariant = { λ x. vec_capacity x.slots ≡ x.size };
}

// Adds empty places until there are so many.
#[cold]
#[inline(never)]
fn lengthen(slots: &mut Vec<Compact>, count: usize)
    requires room { count ≤ vec_capacity slots.old }
    ensures long { count ≤ length slots.new.items }
    ensures room { vec_capacity slots.new ≡ vec_capacity slots.old }
    ensures same { (n : ℕ) → places_with n slots.new.items ≡ places_with n slots.old.items }
{
    while slots.len() < count {
        slots.push_reserved(Compact::none());
    }
}

// There are so many places.
#[inline(always)]
fn make_places(slots: &mut Vec<Compact>, count: usize)
    requires room { count ≤ vec_capacity slots.old }
    ensures long { count ≤ length slots.new.items }
    ensures room { vec_capacity slots.new ≡ vec_capacity slots.old }
    ensures same { (n : ℕ) → places_with n slots.new.items ≡ places_with n slots.old.items }
{
    if slots.len() < count {
        lengthen(slots, count);
    }
}

impl Slots {
    /// So many places, all of them empty.
    pub(crate) fn empty(alloc: Global, size: usize) -> Result<Slots, AllocError>
        ensures long { IfOk result (λ x. length x ≡ size) }
        ensures none { IfOk result (λ x. (o : ℕ) → slot x o ≡ None) }
    {
        let slots = Vec::with_capacity(alloc, size)?;
        Ok(Slots { slots, size })
    }

    /// The entry at a place, if there is one.
    #[inline(always)]
    pub(crate) fn get(&self, at: usize) -> Option<Entry>
        requires { at < length self.now }
        ensures { result ≡ slot self.now at }
    {
        if at < self.slots.len() {
            self.slots[at].entry_if()
        } else {
            None
        }
    }

    /// Puts an entry at a place.
    #[inline(always)]
    pub(crate) fn keep(&mut self, at: usize, entry: Entry)
        requires { at < length self.old }
        ensures { self.new ≡ set self.old at (Some entry) }
    {
        make_places(&mut self.slots, at + 1);
        self.slots[at] = Compact::of(entry);
    }

    /// Empties a place.
    #[inline(always)]
    pub(crate) fn empty_at(&mut self, at: usize)
        requires { at < length self.old }
        ensures { self.new ≡ set self.old at None }
    {
        if at < self.slots.len() {
            self.slots[at].state = 0;
        }
    }
}
