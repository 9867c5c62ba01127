//! What a worker writes to the others.

ghost use Rattle.std.specs.Prelude.{◌≡◌, ◌≤◌, ◌<◌, ℕ, length, Some, map as each, vec_capacity};
ghost use Rattle.pram_model.specs.declared.rule.Rule.{Rule};
ghost use Rattle.superstep_machine.specs.declared.key.Key.{Key as NotedKey};
ghost use Rattle.superstep_machine.specs.HeaderWords.{FitsKey, FitsPlace};
ghost use Rattle.worker_bank.specs.Bank.{IsBank};
ghost use Rattle.combining.specs.AllModules.{room_at};
ghost use Rattle.worker_exchange.specs.Rows.{IsRow, words_in};
ghost use Rattle.worker_exchange.specs.Sends.{CanBeWritten, header_with};
ghost use Rattle.worker_exchange.specs.Equipped.{AreBuffers};
ghost use Rattle.worker_exchange.specs.MessagesWritten.{any_active as spec_any_active, told_in_send, told_alone, told_mark};

use crate::buffers::Buffers;
use crate::fill::{fill_headers, fill_sends};
use crate::pack::pack_send;
use crate::row::Row;
use address_map::AddressMap;
use pram_values::Place;
use superstep_machine::{HeaderMark, Key, MessageHeader};
use worker_steps::WorkerState;
use write_rules::WriteRule;

/// Whether a processor of the worker is active.
pub(crate) fn any_active(steps: &WorkerState) -> bool
    requires { IsBank steps.now.bank }
    ensures { result ≡ spec_any_active steps.now }
{
    !steps.bank.masks.active().is_empty()
}

// A place fits in the words of a header.
fn place_fits(place: Place)
    ensures { FitsPlace place }
{
    match place {
        Place::All => {}
        Place::Processor(index) => {
            let _index = index;
        }
        Place::Cell(cell) => {
            let _cell = cell;
        }
    }
}

/// A key fits in the words of a header.
pub(crate) fn key_fits(noted: Option<Key>)
    ensures { (key : NotedKey) → noted ≡ Some key → FitsKey key }
{
    if let Some(key) = noted {
        let _count = key.count;
        let _position = key.position;
        let _line = key.line;
        place_fits(key.place);
    }
}

/// Fills a row with what is held for each module. Like the others here it answers how many words the messages have together.
pub(crate) fn tell_send<R: WriteRule, M: AddressMap, W: Row>(
    rule: &R,
    map: &M,
    steps: &WorkerState,
    buffers: &mut Buffers,
    row: &mut W,
) -> u64
    requires held { CanBeWritten (R.WriteRule.rule rule.now) (M.shape map.now) (each vec_capacity buffers.old.words.items)
        steps.now.puts.held steps.now.asks.held }
    requires counts { length buffers.old.counts.items ≡ (M.shape map.now).parts }
    requires workers { length (W.filled row.old) ≡ (M.shape map.now).parts }
    requires room { (j : ℕ) → j < (M.shape map.now).parts → room_at (each vec_capacity buffers.old.words.items) j ≤ W.room row.old }
    ensures filled { IsRow (M.shape map.now).parts (told_in_send (R.WriteRule.rule rule.now) (M.shape map.now) steps.now)
        (W.filled row.new) }
    ensures words { result ≡ words_in (W.filled row.new) }
    ensures buffers { (most : ℕ) → AreBuffers (M.shape map.now).parts most buffers.old → AreBuffers (M.shape map.now).parts most
        buffers.new }
    ensures room { W.room row.new ≡ W.room row.old }
    ensures kept { W.kept row.old row.new }
{
    pack_send(
        rule,
        map,
        &steps.puts,
        &steps.asks,
        buffers.words.as_mut_slice(),
        buffers.counts.as_mut_slice(),
    );
    fill_sends(
        row,
        steps.key,
        buffers.words.as_slice(),
        buffers.counts.as_slice(),
    )
}

/// Fills a row with a header alone: a key, and whether a processor is active.
pub(crate) fn tell_alone<W: Row>(row: &mut W, workers: usize, key: Option<Key>, active: bool) -> u64
    requires { length (W.filled row.old) ≡ workers }
    ensures filled { IsRow workers (told_alone (record (header_with key 0) { active = active })) (W.filled row.new) }
    ensures words { result ≡ words_in (W.filled row.new) }
    ensures room { W.room row.new ≡ W.room row.old }
    ensures kept { W.kept row.old row.new }
{
    let header = MessageHeader {
        key,
        mark: HeaderMark::Clear,
        active,
        puts: 0,
    };
    fill_headers(row, workers, header)
}

/// Fills a row with a mark alone.
pub(crate) fn tell_mark<W: Row>(row: &mut W, workers: usize, mark: HeaderMark) -> u64
    requires { length (W.filled row.old) ≡ workers }
    ensures filled { IsRow workers (told_mark mark) (W.filled row.new) }
    ensures words { result ≡ words_in (W.filled row.new) }
    ensures room { W.room row.new ≡ W.room row.old }
    ensures kept { W.kept row.old row.new }
{
    let header = MessageHeader {
        key: None,
        mark,
        active: false,
        puts: 0,
    };
    fill_headers(row, workers, header)
}
