//! What a module does with the messages of a send: the puts are merged into its cells, and conflicts are noted.

ghost use Rattle.std.specs.Prelude.{◌≡◌, ◌<◌, ◌≤◌, ℕ, List, length, map as each};
ghost use Rattle.superstep_instructions.specs.Code.{SuperstepCode};
ghost use Rattle.superstep_machine.specs.declared.header.MessageHeader.{MessageHeader as Header};
ghost use Rattle.superstep_machine.specs.Setting.{module_cells};
ghost use Rattle.superstep_machine.specs.Sending as spec;
ghost use Rattle.superstep_machine.specs.Run.{setting, Sends};
ghost use Rattle.superstep_machine.specs.WordLaws.{messages_read};
ghost use Rattle.instruction_steps.specs.Views.{moment_is, put_is, read_is, uniform_of};
ghost use Rattle.combining.specs.ModuleLaws.{ask_parts as spec_ask_parts, key_of_shared as spec_key_of_shared};
ghost use Rattle.worker_exchange.specs.Received.{messages_to};
ghost use Rattle.worker_exchange.specs.Settled.{key_of_put as spec_key_of_put, IsSettled};

use crate::column::Column;
use crate::parts::{ask_parts, put_parts};
use address_map::AddressMap;
use combining::{Cells, asks_are_apart, merge_at_module, read_conflict};
use instruction_steps::{Moment, Read, UniformState};
use pram_values::{Kind, Place};
use superstep_instructions::Side;
use superstep_machine::{Key, least};
use write_rules::WriteRule;

// A fault of several processors at a cell.
fn conflict_at(at: Moment, cell: u32, kind: Kind) -> Key
    ensures { result ≡ spec.conflict_at (moment_is at) cell kind }
{
    Key {
        count: at.count,
        position: at.position,
        conflict: true,
        place: Place::Cell(cell),
        kind,
        line: at.line,
    }
}

// The key of a conflict of puts.
fn key_of_put(put: Option<Moment>, found: Option<(u32, Kind)>) -> Option<Key>
    ensures { result ≡ spec_key_of_put (put_is put) found }
{
    match (put, found) {
        (Some(at), Some((cell, kind))) => Some(conflict_at(at, cell, kind)),
        _ => None,
    }
}

// The key of a cell that several ask for.
fn key_of_shared(at: Moment, cell: Option<u32>) -> Option<Key>
    ensures { result ≡ spec_key_of_shared (moment_is at) cell }
{
    match cell {
        None => None,
        Some(cell) => Some(conflict_at(at, cell, Kind::ReadConflict)),
    }
}

// The key of a conflict of one read; the program's own reads are in none.
fn key_of_read<M: AddressMap>(
    map: &M,
    part: u32,
    columns: &[&[u64]],
    k: u32,
    read: Read,
    cells: &mut Cells,
) -> Option<Key>
    requires part { part < (M.shape map.now).parts }
    requires size { length cells.old ≡ (M.shape map.now).width part }
    ensures key { (code : SuperstepCode) (bound n : ℕ) (received : List (Header × List ℕ)) →
        spec_ask_parts code.rule received ≡ each (λ x. x.now) columns.now →
        result ≡ spec.read_conflict (messages_read code.rule (M.shape map.now) part received)
        (module_cells (setting code (M.shape map.now) bound n) part) k (read_is read) }
    ensures same { cells.new ≡ cells.old }
{
    match read.side {
        Side::Uniform => None,
        Side::Private => {
            let cell = read_conflict(map, part, columns, k, cells);
            key_of_shared(read.moment, cell)
        }
    }
}

// The least key of the conflicts of all reads.
fn key_of_reads<M: AddressMap>(
    map: &M,
    part: u32,
    columns: &[&[u64]],
    reads: &[Read],
    cells: &mut Cells,
) -> Option<Key>
    requires part { part < (M.shape map.now).parts }
    requires size { length cells.old ≡ (M.shape map.now).width part }
    requires few { length reads.now ≤ 8 }
    ensures key { (code : SuperstepCode) (bound n : ℕ) (received : List (Header × List ℕ)) →
        spec_ask_parts code.rule received ≡ each (λ x. x.now) columns.now →
        result ≡ spec.read_conflicts (messages_read code.rule (M.shape map.now) part received)
        (module_cells (setting code (M.shape map.now) bound n) part) 0 (each read_is reads.now) }
    ensures same { cells.new ≡ cells.old }
{
    if asks_are_apart(columns) {
        return None;
    }
    let mut noted = None;
    let mut k = reads.len();
    'reads: while k > 0 {
        k -= 1;
        let key = key_of_read(map, part, columns, k as u32, reads[k], cells);
        noted = least(key, noted);
    }
    noted
}

/// Merges the puts of a send into the cells of a module, and says the least key of what it notes: of the puts, and of the reads that are
/// held, unless cells may be read by several.
pub fn settle<R: WriteRule, M: AddressMap, C: Column>(
    rule: &R,
    map: &M,
    part: u32,
    column: &C,
    u: &UniformState,
    cells: &mut Cells,
) -> Option<Key>
    requires part { part < (M.shape map.now).parts }
    requires size { length cells.old ≡ (M.shape map.now).width part }
    requires column { length (C.came column.now) ≡ (M.shape map.now).parts }
    requires few { length u.now.asks.items ≤ 8 }
    ensures { (code : SuperstepCode) (bound n : ℕ) → R.WriteRule.rule rule.now ≡ code.rule →
        IsSettled (setting code (M.shape map.now) bound n) part (uniform_of u.now)
        (messages_to code.rule (M.shape map.now) part Sends (C.came column.now)) cells.old cells.new result }
{
    let workers = map.modules() as usize;
    let mut parts: [&[u64]; 32] = [&[]; 32];
    put_parts(rule, column, workers, &mut parts);
    let found = merge_at_module(rule, map, part, &parts[..workers], cells);
    let put_key = key_of_put(u.put, found);
    if rule.reads_shared() {
        return put_key;
    }
    ask_parts(rule, column, workers, &mut parts);
    let read_key = key_of_reads(map, part, &parts[..workers], u.asks.as_slice(), cells);
    least(put_key, read_key)
}
