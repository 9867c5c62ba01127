//! Asks and puts for one module that stand one behind the other: what is known of the module stays in registers over their loop.

ghost use Rattle.std.specs.Prelude.{◌≡◌, ◌≤◌, ◌<◌, ◌+◌, ◌%◌, ◌++◌, ◌^◌, ℕ, List, [], length, get_or, set, take, drop, vec_capacity};
ghost use Rattle.std.specs.List.{AllByRecursion};
ghost use Rattle.superstep_machine.specs.Words.{ask_words};
ghost use Rattle.superstep_machine.specs.Fitting.{FitsPut};
ghost use Rattle.combining.specs.AllModules.{GetsFirst};
ghost use Rattle.combining.specs.Came.{all_replied, left_of_all};
ghost use Rattle.combining.specs.Held.{paired, packed_puts};
ghost use Rattle.combining.specs.Compact.{held_at};
ghost use Rattle.combining.specs.Asked.{ask_at, asks_for};

use crate::compact::Compact;
use crate::single::taken_out;
use crate::states::AskStates;
use crate::words::{cell_of, push_ask, push_put};
use address_map::AddressMap;
use write_rules::WriteRule;

/// Keeps the words of a module's reply, of which the first were taken, at the asks from one on, as long as they are for that module. Says
/// up to which ask, and how many words are taken then.
pub(crate) fn keep_run<M: AddressMap>(
    map: &M,
    home: u32,
    words: &[u64],
    first: usize,
    keys: &[u32],
    from: usize,
    asked: &mut AskStates,
) -> (usize, usize)
    requires cells { (i : ℕ) → i < length keys.now → get_or keys.now i 0 % 2 ^ 20 < (M.shape map.now).count }
    requires long { length asked.old.items ≡ length keys.now }
    requires from { from ≤ length asked.old.items }
    // With so many words taken of each module's reply, the asks from the first on get what is left of all replies.
    ensures held { (taken : List ℕ) (replies : List (List ℕ)) → home < length taken → home < length replies →
        get_or taken home 0 ≡ first → get_or replies home [] ≡ words.now →
        take result.0 (paired ask_at keys.now asked.new.items)
        ++ all_replied (M.shape map.now).part 0 (left_of_all (set taken home result.1) 0 replies)
        (drop result.0 (paired ask_at keys.now asked.old.items))
        ≡ take from (paired ask_at keys.now asked.old.items)
        ++ all_replied (M.shape map.now).part 0 (left_of_all taken 0 replies) (drop from (paired ask_at keys.now asked.old.items)) }
    ensures rest { drop result.0 asked.new.items ≡ drop result.0 asked.old.items }
    ensures length { length asked.new.items ≡ length asked.old.items }
    ensures room { asked.new.room ≡ asked.old.room }
    ensures within { result.0 ≤ length asked.old.items }
    ensures on { from ≤ result.0 }
    ensures some { from < length asked.old.items → (M.shape map.now).part (get_or keys.now from 0 % 2 ^ 20) ≡ home → from < result.0 }
{
    let mut n = first;
    'asks: for i in from..keys.len() {
        let (there, _offset) = map.place(cell_of(keys[i]));
        if there != home {
            return (i, n);
        }
        if n < words.len() {
            asked.put(i, words[n].cast_signed());
            n += 1;
        }
    }
    (keys.len(), n)
}

// Adds the words of the asks from one on behind those of a list, as long as they are for that module. Says up to which ask.
fn append_ask_run<M: AddressMap>(
    map: &M,
    home: u32,
    keys: &[u32],
    asked: &AskStates,
    from: usize,
    mut list: Vec<u64>,
) -> (Vec<u64>, usize)
    requires cells { (i : ℕ) → i < length keys.now → get_or keys.now i 0 % 2 ^ 20 < (M.shape map.now).count }
    requires long { length asked.now.items ≡ length keys.now }
    requires from { from ≤ length asked.now.items }
    requires room { length list.items
        + length (ask_words (asks_for (M.shape map.now).part home (drop from (paired ask_at keys.now asked.now.items)))) ≤
        vec_capacity list }
    ensures got { GetsFirst home (λ j. ask_words (asks_for (M.shape map.now).part j (drop from (paired ask_at keys.now asked.now.items))))
        (λ j. ask_words (asks_for (M.shape map.now).part j (drop result.1 (paired ask_at keys.now asked.now.items)))) list.items
        result.0.items }
    ensures room { vec_capacity result.0 ≡ vec_capacity list }
    ensures within { result.1 ≤ length asked.now.items }
    ensures on { from ≤ result.1 }
    ensures some { from < length asked.now.items → (M.shape map.now).part (get_or keys.now from 0 % 2 ^ 20) ≡ home → from < result.1 }
{
    let marks = asked.marks();
    'asks: for i in from..marks.len() {
        let (there, _offset) = map.place(cell_of(keys[i]));
        if there != home {
            return (list, i);
        }
        push_ask(&mut list, keys[i], marks[i]);
    }
    (list, marks.len())
}

/// Adds the words of the asks from one on to their module's column, as long as they are for that module. Says up to which ask.
pub(crate) fn add_ask_run<M: AddressMap>(
    map: &M,
    home: u32,
    keys: &[u32],
    asked: &AskStates,
    from: usize,
    column: &mut Vec<u64>,
) -> usize
    requires cells { (i : ℕ) → i < length keys.now → get_or keys.now i 0 % 2 ^ 20 < (M.shape map.now).count }
    requires long { length asked.now.items ≡ length keys.now }
    requires from { from ≤ length asked.now.items }
    requires room { length column.old.items
        + length (ask_words (asks_for (M.shape map.now).part home (drop from (paired ask_at keys.now asked.now.items))))
        ≤ vec_capacity column.old }
    ensures got { GetsFirst home (λ j. ask_words (asks_for (M.shape map.now).part j (drop from (paired ask_at keys.now asked.now.items))))
        (λ j. ask_words (asks_for (M.shape map.now).part j (drop result (paired ask_at keys.now asked.now.items)))) column.old.items
        column.new.items }
    ensures room { vec_capacity column.new ≡ vec_capacity column.old }
    ensures within { result ≤ length asked.now.items }
    ensures some { from < length asked.now.items → (M.shape map.now).part (get_or keys.now from 0 % 2 ^ 20) ≡ home → from < result }
{
    let list = taken_out(column);
    let (list, next) = append_ask_run(map, home, keys, asked, from, list);
    *column = list;
    next
}

// Adds the words of the puts from one on behind those of a list, as long as they are for that module. Says up to which put.
fn append_put_run<R: WriteRule, M: AddressMap>(
    rule: &R,
    map: &M,
    home: u32,
    keys: &[u32],
    entries: &[Compact],
    from: usize,
    mut list: Vec<u64>,
) -> (Vec<u64>, usize)
    requires cells { (i : ℕ) → i < length keys.now → get_or keys.now i 0 < (M.shape map.now).count }
    requires fit { AllByRecursion (FitsPut (R.WriteRule.rule rule.now)) (paired held_at keys.now entries.now) }
    requires long { length entries.now ≡ length keys.now }
    requires from { from ≤ length entries.now }
    requires room { length list.items + length (packed_puts (R.WriteRule.rule rule.now) (M.shape map.now).part home
        (drop from (paired held_at keys.now entries.now))) ≤ vec_capacity list }
    ensures got { GetsFirst home (λ j. packed_puts (R.WriteRule.rule rule.now) (M.shape map.now).part j (drop from (paired held_at keys.now
        entries.now))) (λ j. packed_puts (R.WriteRule.rule rule.now) (M.shape map.now).part j (drop result.1 (paired held_at keys.now
        entries.now))) list.items result.0.items }
    ensures room { vec_capacity result.0 ≡ vec_capacity list }
    ensures within { result.1 ≤ length entries.now }
    ensures on { from ≤ result.1 }
    ensures some { from < length entries.now → (M.shape map.now).part (get_or keys.now from 0) ≡ home → from < result.1 }
{
    'puts: for i in from..entries.len() {
        let cell = keys[i];
        let (there, _offset) = map.place(cell);
        if there != home {
            return (list, i);
        }
        push_put(rule, &mut list, cell, entries[i].entry());
    }
    (list, entries.len())
}

/// Adds the words of the puts from one on to their module's column, as long as they are for that module. Says up to which put.
pub(crate) fn add_put_run<R: WriteRule, M: AddressMap>(
    rule: &R,
    map: &M,
    home: u32,
    keys: &[u32],
    entries: &[Compact],
    from: usize,
    column: &mut Vec<u64>,
) -> usize
    requires cells { (i : ℕ) → i < length keys.now → get_or keys.now i 0 < (M.shape map.now).count }
    requires fit { AllByRecursion (FitsPut (R.WriteRule.rule rule.now)) (paired held_at keys.now entries.now) }
    requires long { length entries.now ≡ length keys.now }
    requires from { from ≤ length entries.now }
    requires room { length column.old.items + length (packed_puts (R.WriteRule.rule rule.now) (M.shape map.now).part home
        (drop from (paired held_at keys.now entries.now))) ≤ vec_capacity column.old }
    ensures got { GetsFirst home (λ j. packed_puts (R.WriteRule.rule rule.now) (M.shape map.now).part j (drop from (paired held_at keys.now
        entries.now))) (λ j. packed_puts (R.WriteRule.rule rule.now) (M.shape map.now).part j (drop result (paired held_at keys.now
        entries.now))) column.old.items column.new.items }
    ensures room { vec_capacity column.new ≡ vec_capacity column.old }
    ensures within { result ≤ length entries.now }
    ensures some { from < length entries.now → (M.shape map.now).part (get_or keys.now from 0) ≡ home → from < result }
{
    let list = taken_out(column);
    let (list, next) = append_put_run(rule, map, home, keys, entries, from, list);
    *column = list;
    next
}
