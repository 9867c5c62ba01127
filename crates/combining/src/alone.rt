//! Puts that come in ascending order: each is alone at its cell, so it is settled as it is read.

ghost use Rattle.std.specs.Prelude.{◌≡◌, ◌<◌, ℕ, length, IfSome, Some, true, map as each, set};
ghost use Rattle.address_map.specs.Lawful.{Shape};
ghost use Rattle.superstep_machine.specs.Sending.{verdict_on, settled};
ghost use Rattle.combining.specs.Gathering.{value_at, note};
ghost use Rattle.combining.specs.Merged.{refusal, IsMerged};
ghost use Rattle.combining.specs.Alone.{cells_put, AscendTo, AscendAll, SettlesAlone};

use crate::merge::least;
use crate::words::{PlacedPut, PutWords, next, put_length};
use address_map::AddressMap;
use pram_values::Kind;
use write_rules::WriteRule;

// Numbers of cells are below it.
const CELLS: u64 = 1_048_576;

// Whether the cells of one column's puts ascend, from some number on: then the number behind the last. The first words of all groups tell
// it; one with a mark of a clash is too great.
#[inline(never)]
fn ascend_column<R: WriteRule>(rule: &R, words: &[u64], from: u64) -> Option<u64>
    ensures { IfSome result (λ k. (m : Shape) (j : ℕ) → AscendTo from (cells_put (R.WriteRule.rule rule.now) m j words.now) k) }
{
    let size = put_length(rule);
    let mut least = from;
    let mut rest = words;
    while rest.len() >= size {
        let (group, behind) = rest.split_at(size);
        let first = group[0];
        if first < least || first >= CELLS {
            return None;
        }
        least = first + 1;
        rest = behind;
    }
    Some(least)
}

/// Whether the cells of all puts ascend, column behind column. It looks at the first word of each group alone, so it may miss some that do.
pub(crate) fn ascend_all<R: WriteRule>(rule: &R, columns: &[&[u64]]) -> bool
    ensures { result ≡ true → (m : Shape) (j : ℕ) → AscendAll (R.WriteRule.rule rule.now) m j 0 (each (λ x. x.now) columns.now) }
{
    let mut least = 0;
    for words in columns {
        let Some(next) = ascend_column(rule, words, least) else {
            return false;
        };
        least = next;
    }
    true
}

// Settles the only put to a cell.
#[inline(always)]
fn settle_alone<R: WriteRule>(
    rule: &R,
    put: PlacedPut,
    values: &mut [i64],
    noted: Option<(u32, Kind)>,
) -> Option<(u32, Kind)>
    requires { put.offset < length values.old }
    ensures values { values.new ≡ set values.old put.offset (settled (verdict_on (R.WriteRule.rule rule.now) (Some put.entry))
        (value_at values.old put.offset)) }
    ensures noted { result ≡ note put.cell (refusal (verdict_on (R.WriteRule.rule rule.now) (Some put.entry))) noted }
{
    match rule.verdict(put.entry) {
        Ok(value) => {
            values[put.offset as usize] = value;
            noted
        }
        Err(kind) => least(put.cell, kind, noted),
    }
}

// Settles the puts of one column, each alone at its cell. It is a function of its own, so that what the loop needs stays in registers.
#[inline(never)]
fn settle_column_alone<R: WriteRule, M: AddressMap>(
    rule: &R,
    map: &M,
    part: u32,
    words: &[u64],
    values: &mut [i64],
    before: Option<(u32, Kind)>,
) -> Option<(u32, Kind)>
    requires values { length values.old ≡ (M.shape map.now).width part }
    ensures settled { SettlesAlone (M.shape map.now) (R.WriteRule.rule rule.now) part words.now values.old before values.new result }
    ensures values { length values.new ≡ length values.old }
{
    let format = PutWords { rule, map, part };
    let mut noted = before;
    let mut rest = words;
    while let Some((put, behind)) = next(&format, rest) {
        noted = settle_alone(rule, put, values, noted);
        rest = behind;
    }
    noted
}

/// Settles the puts of all workers, whose cells ascend: in one pass over the words.
pub(crate) fn settle_all_alone<R: WriteRule, M: AddressMap>(
    rule: &R,
    map: &M,
    part: u32,
    columns: &[&[u64]],
    values: &mut [i64],
) -> Option<(u32, Kind)>
    requires values { length values.old ≡ (M.shape map.now).width part }
    requires ascend { AscendAll (R.WriteRule.rule rule.now) (M.shape map.now) part 0 (each (λ x. x.now) columns.now) }
    ensures merged { IsMerged (M.shape map.now) (R.WriteRule.rule rule.now) part (each (λ x. x.now) columns.now) values.old values.new
        result }
    ensures values { length values.new ≡ length values.old }
{
    let mut noted = None;
    for words in columns {
        noted = settle_column_alone(rule, map, part, words, values, noted);
    }
    noted
}
