//! Which cell of a module two or more processors ask for.

ghost use Rattle.std.specs.Prelude.{◌≡◌, ◌<◌, length, ℕ, Some, None, true, map as each, set};
ghost use Rattle.address_map.specs.Lawful.{Shape};
ghost use Rattle.superstep_machine.specs.Sending.{several};
ghost use Rattle.superstep_machine.specs.WordReading.{askers_of_column, askers_read};
ghost use Rattle.combining.specs.Gathering.{slot, note, Collects, CollectsAll, TakesOut, TakesAllOut};
ghost use Rattle.combining.specs.Merged.{shared, noted_cell, IsLeastShared};

use crate::apart::ascend_words_all;
use crate::cells::Cells;
use crate::merge::least;
use crate::words::{AskWords, next};
use address_map::AddressMap;
use pram_values::Kind;

// Whether two or more ask, with one column's more.
fn counted(before: Option<bool>, twice: bool) -> bool
    ensures { Some result ≡ several before (Some twice) }
{
    match before {
        None => twice,
        Some(_) => true,
    }
}

// Counts those who ask in one column.
fn count_column<M: AddressMap>(
    map: &M,
    part: u32,
    k: u32,
    words: &[u64],
    askers: &mut [Option<bool>],
)
    requires { length askers.old ≡ (M.shape map.now).width part }
    ensures gathered { Collects (M.shape map.now) part several (λ c. askers_of_column (M.shape map.now) part k c words.now) askers.old
        askers.new }
    ensures length { length askers.new ≡ length askers.old }
{
    let format = AskWords { map, part };
    let mut rest = words;
    while let Some((ask, behind)) = next(&format, rest) {
        if ask.read == k {
            let at = ask.offset as usize;
            askers[at] = Some(counted(askers[at], ask.twice));
        }
        rest = behind;
    }
}

// Counts those who ask in all columns.
fn count_all<M: AddressMap>(
    map: &M,
    part: u32,
    k: u32,
    columns: &[&[u64]],
    askers: &mut [Option<bool>],
)
    requires { length askers.old ≡ (M.shape map.now).width part }
    ensures gathered { CollectsAll (M.shape map.now) part several (askers_read (M.shape map.now) part (each (λ x. x.now) columns.now) k)
        askers.old askers.new }
    ensures length { length askers.new ≡ length askers.old }
{
    for words in columns {
        count_column(map, part, k, words, askers);
    }
}

// Takes out what was counted for one cell, and notes it where two or more ask.
fn note_at(
    cell: u32,
    at: usize,
    askers: &mut [Option<bool>],
    noted: Option<(u32, Kind)>,
) -> Option<(u32, Kind)>
    requires { at < length askers.old }
    ensures askers { askers.new ≡ set askers.old at None }
    ensures noted { result ≡ note cell (shared (slot askers.old at)) noted }
{
    let counted = askers[at];
    askers[at] = None;
    match counted {
        Some(true) => least(cell, Kind::ReadConflict, noted),
        _ => noted,
    }
}

// Takes out what was counted for the cells of one column.
fn note_column<M: AddressMap>(
    map: &M,
    part: u32,
    k: u32,
    words: &[u64],
    askers: &mut [Option<bool>],
    before: Option<(u32, Kind)>,
) -> Option<(u32, Kind)>
    requires { length askers.old ≡ (M.shape map.now).width part }
    ensures noted { TakesOut (M.shape map.now) part several shared (λ c. askers_of_column (M.shape map.now) part k c words.now) askers.old
        before askers.new result }
    ensures length { length askers.new ≡ length askers.old }
{
    let format = AskWords { map, part };
    let mut noted = before;
    let mut rest = words;
    while let Some((ask, behind)) = next(&format, rest) {
        if ask.read == k {
            noted = note_at(ask.cell, ask.offset as usize, askers, noted);
        }
        rest = behind;
    }
    noted
}

// Takes out what was counted for the cells of all columns.
fn note_all<M: AddressMap>(
    map: &M,
    part: u32,
    k: u32,
    columns: &[&[u64]],
    askers: &mut [Option<bool>],
) -> Option<(u32, Kind)>
    requires { length askers.old ≡ (M.shape map.now).width part }
    ensures noted { TakesAllOut (M.shape map.now) part shared (askers_read (M.shape map.now) part (each (λ x. x.now) columns.now) k)
        askers.old askers.new result }
    ensures length { length askers.new ≡ length askers.old }
{
    let mut noted = None;
    for words in columns {
        noted = note_column(map, part, k, words, askers, noted);
    }
    noted
}

// The cell of what was noted.
fn cell_of(noted: Option<(u32, Kind)>) -> Option<u32>
    ensures { result ≡ noted_cell noted }
{
    match noted {
        Some((cell, _kind)) => Some(cell),
        None => None,
    }
}

// Counts those who ask, and takes the counts out again.
fn find_shared<M: AddressMap>(
    map: &M,
    part: u32,
    columns: &[&[u64]],
    k: u32,
    askers: &mut [Option<bool>],
) -> Option<u32>
    requires part { part < (M.shape map.now).parts }
    requires size { length askers.old ≡ (M.shape map.now).width part }
    requires empty { (o : ℕ) → slot askers.old o ≡ None }
    ensures least { IsLeastShared (M.shape map.now) part (each (λ x. x.now) columns.now) k result }
    ensures empty { (o : ℕ) → slot askers.new o ≡ None }
    ensures length { length askers.new ≡ length askers.old }
{
    count_all(map, part, k, columns, askers);
    cell_of(note_all(map, part, k, columns, askers))
}

/// Whether no cell is asked for twice by any read, told by words that ascend, in one pass over them for all reads. Where it doesn't say so,
/// `read_conflict` tells.
pub fn asks_are_apart(columns: &[&[u64]]) -> bool
    ensures { result ≡ true → (m : Shape) (part k : ℕ) → IsLeastShared m part (each (λ x. x.now) columns.now) k None }
{
    ascend_words_all(columns)
}

/// The least cell of a module that two or more processors ask for by read k, whatever words the columns hold: words that no worker
/// writes for this module are passed over. The values of the cells stay.
pub fn read_conflict<M: AddressMap>(
    map: &M,
    part: u32,
    columns: &[&[u64]],
    k: u32,
    cells: &mut Cells,
) -> Option<u32>
    requires part { part < (M.shape map.now).parts }
    requires size { length cells.old ≡ (M.shape map.now).width part }
    // Of any words, the least cell of the module for which two or more processors ask by the read is told, or that
    // there is none.
    ensures least { IsLeastShared (M.shape map.now) part (each (λ x. x.now) columns.now) k result }
    // The values of the cells stay.
    ensures same { cells.new ≡ cells.old }
{
    if ascend_words_all(columns) {
        return None;
    }
    find_shared(map, part, columns, k, &mut cells.askers)
}
