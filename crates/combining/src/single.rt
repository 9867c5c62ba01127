//! Where there is one module, all that is held is for it.

ghost use Rattle.std.specs.Prelude.{◌≡◌, ◌≤◌, ◌+◌, ◌++◌, ℕ, false, length, get_or, vec_capacity};
ghost use Rattle.std.specs.List.{AllByRecursion};
ghost use Rattle.superstep_machine.specs.Words.{ask_words};
ghost use Rattle.superstep_machine.specs.Fitting.{FitsPut};
ghost use Rattle.combining.specs.Held.{paired, packed_puts, IsPutBelow};
ghost use Rattle.combining.specs.Compact.{held_at};
ghost use Rattle.combining.specs.Asked.{unasked, ask_at, asks_for, replied, IsAskBelow};

use crate::compact::Compact;
use crate::states::AskStates;
use crate::words::{push_ask, push_put};
use address_map::AddressMap;
use std::mem;
use write_rules::WriteRule;

/// A list that is taken out of its place, to be put back.
#[inline(always)]
pub(crate) fn taken_out(place: &mut Vec<u64>) -> Vec<u64>
    ensures { result ≡ place.old }
{
    let empty = Vec::new(*place.allocator());
    mem::replace(place, empty)
}

// Whether any ask was made more than once.
fn any_again(marks: &[bool]) -> bool
    ensures { result ≡ false → (i : ℕ) → get_or marks.now i false ≡ false }
{
    let mut any = false;
    for i in 0..marks.len() {
        any |= marks[i];
    }
    any
}

// Adds the words of all asks, each made once, behind those of a list: then a word is a key.
fn append_keys<M: AddressMap>(
    map: &M,
    keys: &[u32],
    asked: &AskStates,
    mut list: Vec<u64>,
) -> Vec<u64>
    requires one { (M.shape map.now).parts ≡ 1 }
    requires cells { AllByRecursion (IsAskBelow (M.shape map.now).count) (paired ask_at keys.now asked.now.items) }
    requires long { length asked.now.items ≡ length keys.now }
    requires once { (i : ℕ) → (get_or asked.now.items i unasked).again ≡ false }
    requires room { length list.items + length (ask_words (asks_for (M.shape map.now).part 0 (paired ask_at keys.now asked.now.items)))
        ≤ vec_capacity list }
    ensures words { result.items ≡ list.items ++ ask_words (asks_for (M.shape map.now).part 0 (paired ask_at keys.now asked.now.items)) }
    ensures room { vec_capacity result ≡ vec_capacity list }
{
    let _one = map.modules();
    for i in 0..keys.len() {
        push_ask(&mut list, keys[i], false);
    }
    list
}

/// Adds the words of all asks behind those of a list. It is passed by value, so that its length stays in a register over the loop.
pub(crate) fn append_asks<M: AddressMap>(
    map: &M,
    keys: &[u32],
    asked: &AskStates,
    mut list: Vec<u64>,
) -> Vec<u64>
    requires one { (M.shape map.now).parts ≡ 1 }
    requires cells { AllByRecursion (IsAskBelow (M.shape map.now).count) (paired ask_at keys.now asked.now.items) }
    requires long { length asked.now.items ≡ length keys.now }
    requires room { length list.items + length (ask_words (asks_for (M.shape map.now).part 0 (paired ask_at keys.now asked.now.items)))
        ≤ vec_capacity list }
    ensures words { result.items ≡ list.items ++ ask_words (asks_for (M.shape map.now).part 0 (paired ask_at keys.now asked.now.items)) }
    ensures room { vec_capacity result ≡ vec_capacity list }
{
    let _one = map.modules();
    let marks = asked.marks();
    if !any_again(marks) {
        return append_keys(map, keys, asked, list);
    }
    for i in 0..marks.len() {
        push_ask(&mut list, keys[i], marks[i]);
    }
    list
}

/// Adds the words of all puts behind those of a list.
pub(crate) fn append_puts<R: WriteRule, M: AddressMap>(
    rule: &R,
    map: &M,
    keys: &[u32],
    entries: &[Compact],
    mut list: Vec<u64>,
) -> Vec<u64>
    requires one { (M.shape map.now).parts ≡ 1 }
    requires cells { AllByRecursion (IsPutBelow (M.shape map.now).count) (paired held_at keys.now entries.now) }
    requires fit { AllByRecursion (FitsPut (R.WriteRule.rule rule.now)) (paired held_at keys.now entries.now) }
    requires long { length entries.now ≡ length keys.now }
    requires room { length list.items + length (packed_puts (R.WriteRule.rule rule.now) (M.shape map.now).part 0
        (paired held_at keys.now entries.now)) ≤ vec_capacity list }
    ensures words { result.items ≡ list.items ++ packed_puts (R.WriteRule.rule rule.now) (M.shape map.now).part 0
        (paired held_at keys.now entries.now) }
    ensures room { vec_capacity result ≡ vec_capacity list }
{
    let _one = map.modules();
    for i in 0..entries.len() {
        push_put(rule, &mut list, keys[i], entries[i].entry());
    }
    list
}

/// Keeps a reply's words at the asks, in order and as far as they reach.
pub(crate) fn keep_in_order<M: AddressMap>(
    map: &M,
    words: &[u64],
    keys: &[u32],
    asked: &mut AskStates,
)
    requires one { (M.shape map.now).parts ≡ 1 }
    requires cells { AllByRecursion (IsAskBelow (M.shape map.now).count) (paired ask_at keys.now asked.old.items) }
    requires long { length asked.old.items ≡ length keys.now }
    ensures held { paired ask_at keys.now asked.new.items ≡ replied (M.shape map.now).part 0 words.now
        (paired ask_at keys.now asked.old.items) }
    ensures length { length asked.new.items ≡ length asked.old.items }
    ensures room { asked.new.room ≡ asked.old.room }
{
    let _one = map.modules();
    let _key = keys.len();
    asked.put_words(words);
}
