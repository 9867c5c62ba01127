//! What a module does with the puts of all workers.

ghost use Rattle.std.specs.Prelude.{◌≡◌, ◌<◌, length, ℕ, Some, None, map as each, set};
ghost use Rattle.superstep_machine.specs.WordReading.{entry_of_column, entry_read};
ghost use Rattle.superstep_machine.specs.Sending.{join, verdict_on, settled};
ghost use Rattle.combining.specs.Gathering.{slot, value_at, note, Collects, CollectsAll, TakesOut, TakesAllOut, Settles};
ghost use Rattle.combining.specs.Merged.{refusal, IsMerged};

use crate::alone::{ascend_all, settle_all_alone};
use crate::cells::Cells;
use crate::slots::Slots;
use crate::words::{PutWords, next};
use address_map::AddressMap;
use pram_values::Kind;
use write_rules::{Entry, WriteRule};

// One more entry.
fn joined<R: WriteRule>(rule: &R, before: Option<Entry>, entry: Entry) -> Entry
    ensures { Some result ≡ join (R.WriteRule.rule rule.now) before (Some entry) }
{
    match before {
        None => entry,
        Some(e) => rule.join(e, entry),
    }
}

// Joins what one worker put.
fn gather_column<R: WriteRule, M: AddressMap>(
    rule: &R,
    map: &M,
    part: u32,
    words: &[u64],
    entries: &mut Slots,
)
    requires { length entries.old ≡ (M.shape map.now).width part }
    ensures gathered { Collects (M.shape map.now) part (join (R.WriteRule.rule rule.now))
        (λ c. entry_of_column (R.WriteRule.rule rule.now) (M.shape map.now) part c words.now) entries.old entries.new }
    ensures length { length entries.new ≡ length entries.old }
{
    let format = PutWords { rule, map, part };
    let mut rest = words;
    while let Some((put, behind)) = next(&format, rest) {
        let at = put.offset as usize;
        let before = entries.get(at);
        entries.keep(at, joined(rule, before, put.entry));
        rest = behind;
    }
}

// Joins what all workers put.
fn gather<R: WriteRule, M: AddressMap>(
    rule: &R,
    map: &M,
    part: u32,
    columns: &[&[u64]],
    entries: &mut Slots,
)
    requires { length entries.old ≡ (M.shape map.now).width part }
    ensures gathered { CollectsAll (M.shape map.now) part (join (R.WriteRule.rule rule.now))
        (entry_read (R.WriteRule.rule rule.now) (M.shape map.now) part (each (λ x. x.now) columns.now)) entries.old entries.new }
    ensures length { length entries.new ≡ length entries.old }
{
    for words in columns {
        gather_column(rule, map, part, words, entries);
    }
}

// The lesser of a new conflict and of one that was noted.
pub(crate) fn least(cell: u32, kind: Kind, noted: Option<(u32, Kind)>) -> Option<(u32, Kind)>
    ensures { result ≡ note cell (Some kind) noted }
{
    match noted {
        Some((other, earlier)) if other <= cell => Some((other, earlier)),
        _ => Some((cell, kind)),
    }
}

// Settles one cell.
fn settle_at<R: WriteRule>(
    rule: &R,
    cell: u32,
    at: usize,
    entries: &mut Slots,
    values: &mut [i64],
    noted: Option<(u32, Kind)>,
) -> Option<(u32, Kind)>
    requires entry { at < length entries.old }
    requires value { at < length values.old }
    ensures entries { entries.new ≡ set entries.old at None }
    ensures values { values.new ≡ set values.old at (settled (verdict_on (R.WriteRule.rule rule.now) (slot entries.old at))
        (value_at values.old at)) }
    ensures noted { result ≡ note cell (refusal (verdict_on (R.WriteRule.rule rule.now) (slot entries.old at))) noted }
{
    let Some(entry) = entries.get(at) else {
        return noted;
    };
    entries.empty_at(at);
    match rule.verdict(entry) {
        Ok(value) => {
            values[at] = value;
            noted
        }
        Err(kind) => least(cell, kind, noted),
    }
}

// Settles what one worker put.
fn settle_column<R: WriteRule, M: AddressMap>(
    rule: &R,
    map: &M,
    part: u32,
    words: &[u64],
    entries: &mut Slots,
    values: &mut [i64],
    before: Option<(u32, Kind)>,
) -> Option<(u32, Kind)>
    requires entries { length entries.old ≡ (M.shape map.now).width part }
    requires values { length values.old ≡ (M.shape map.now).width part }
    ensures noted { TakesOut (M.shape map.now) part (join (R.WriteRule.rule rule.now))
        (λ x. refusal (verdict_on (R.WriteRule.rule rule.now) x)) (λ c. entry_of_column (R.WriteRule.rule rule.now) (M.shape map.now) part c
        words.now) entries.old before entries.new result }
    ensures owed { Settles (M.shape map.now) (R.WriteRule.rule rule.now) part entries.old values.old entries.new values.new }
    ensures entries { length entries.new ≡ length entries.old }
    ensures values { length values.new ≡ length values.old }
{
    let format = PutWords { rule, map, part };
    let mut noted = before;
    let mut rest = words;
    while let Some((put, behind)) = next(&format, rest) {
        noted = settle_at(rule, put.cell, put.offset as usize, entries, values, noted);
        rest = behind;
    }
    noted
}

// Settles what all workers put.
fn settle_all<R: WriteRule, M: AddressMap>(
    rule: &R,
    map: &M,
    part: u32,
    columns: &[&[u64]],
    entries: &mut Slots,
    values: &mut [i64],
) -> Option<(u32, Kind)>
    requires entries { length entries.old ≡ (M.shape map.now).width part }
    requires values { length values.old ≡ (M.shape map.now).width part }
    ensures noted { TakesAllOut (M.shape map.now) part (λ x. refusal (verdict_on (R.WriteRule.rule rule.now) x))
        (entry_read (R.WriteRule.rule rule.now) (M.shape map.now) part (each (λ x. x.now) columns.now)) entries.old entries.new result }
    ensures owed { Settles (M.shape map.now) (R.WriteRule.rule rule.now) part entries.old values.old entries.new values.new }
    ensures entries { length entries.new ≡ length entries.old }
    ensures values { length values.new ≡ length values.old }
{
    let mut noted = None;
    for words in columns {
        noted = settle_column(rule, map, part, words, entries, values, noted);
    }
    noted
}

// Settles the puts of all workers: as they are read where their cells ascend, and else once they are joined in the entries.
fn apply<R: WriteRule, M: AddressMap>(
    rule: &R,
    map: &M,
    part: u32,
    columns: &[&[u64]],
    entries: &mut Slots,
    values: &mut [i64],
) -> Option<(u32, Kind)>
    requires part { part < (M.shape map.now).parts }
    requires entries { length entries.old ≡ (M.shape map.now).width part }
    requires values { length values.old ≡ (M.shape map.now).width part }
    requires empty { (o : ℕ) → slot entries.old o ≡ None }
    ensures merged { IsMerged (M.shape map.now) (R.WriteRule.rule rule.now) part (each (λ x. x.now) columns.now) values.old values.new
        result }
    ensures empty { (o : ℕ) → slot entries.new o ≡ None }
    ensures length { length entries.new ≡ length entries.old }
{
    if ascend_all(rule, columns) {
        return settle_all_alone(rule, map, part, columns, values);
    }
    gather(rule, map, part, columns, entries);
    settle_all(rule, map, part, columns, entries, values)
}

/// Applies the puts of all workers to the cells of a module, whatever words the columns hold: groups of words that no worker writes
/// for this module are passed over. The least cell in conflict, with its kind; such cells keep their values.
pub fn merge_at_module<R: WriteRule, M: AddressMap>(
    rule: &R,
    map: &M,
    part: u32,
    columns: &[&[u64]],
    cells: &mut Cells,
) -> Option<(u32, Kind)>
    requires part { part < (M.shape map.now).parts }
    requires size { length cells.old ≡ (M.shape map.now).width part }
    // Of any words, each cell gets what the rule gives for its puts; those in conflict keep their values, and the least
    // is told.
    ensures merged { IsMerged (M.shape map.now) (R.WriteRule.rule rule.now) part (each (λ x. x.now) columns.now) cells.old cells.new
        result }
{
    apply(
        rule,
        map,
        part,
        columns,
        &mut cells.entries,
        &mut cells.values,
    )
}
