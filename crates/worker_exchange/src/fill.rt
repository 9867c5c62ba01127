//! Rows are filled.

ghost use Rattle.std.specs.Prelude.{◌≡◌, ◌<◌, ◌≤◌, ◌^◌, ℕ, [], length, vec_capacity};
ghost use Rattle.superstep_machine.specs.HeaderWords.{header_words};
ghost use Rattle.combining.specs.AllModules.{column};
ghost use Rattle.worker_exchange.specs.Rows.{IsRow, words_in};
ghost use Rattle.worker_exchange.specs.Sends.{words_of, header_with as spec_header, send_message, reply_message};

use crate::copying::lengthen;
use crate::row::Row;
use address_map::AddressMap;
use combining::{Cells, answer_asks};
use superstep_machine::{HeaderMark, Key, MessageHeader};

// The words of a header with a key, before so many puts.
fn header_with(key: Option<Key>, puts: u32) -> [u64; 4]
    ensures { result ≡ header_words (spec_header key puts) }
{
    let header = MessageHeader {
        key,
        mark: HeaderMark::Clear,
        active: false,
        puts,
    };
    header.to_words()
}

/// Fills a row with a header and no words, the same for each worker. Answers how many words the messages have together: none.
pub fn fill_headers<W: Row>(row: &mut W, workers: usize, header: MessageHeader) -> u64
    requires { length (W.filled row.old) ≡ workers }
    // The message to each worker is that header and no words.
    ensures filled { IsRow workers (λ j. record { header = header_words header; words = [] }) (W.filled row.new) }
    // The answer is how many words the messages have together.
    ensures words { result ≡ words_in (W.filled row.new) }
    ensures room { W.room row.new ≡ W.room row.old }
    ensures kept { W.kept row.old row.new }
{
    let words = header.to_words();
    'workers: for j in 0..workers {
        let _filled = row.fill(j, words, &[]);
    }
    0
}

/// Fills a row with the words of a send, behind a header with the key and the number of the puts. Answers how many words the messages
/// have together.
pub fn fill_sends<W: Row>(
    row: &mut W,
    key: Option<Key>,
    columns: &[Vec<u64>],
    counts: &[u32],
) -> u64
    requires workers { length (W.filled row.old) ≡ length columns.now }
    requires counts { length counts.now ≡ length columns.now }
    requires room { (j : ℕ) → length (column (words_of columns.now) j) ≤ W.room row.old }
    // Their number has 64 bits.
    requires few { length columns.now < 2 ^ 32 }
    requires short { (j : ℕ) → length (column (words_of columns.now) j) < 2 ^ 32 }
    // The message to each worker is a header with the key and the number of its puts, and the words for it.
    ensures filled { IsRow (length columns.now) (send_message key (words_of columns.now) counts.now) (W.filled row.new) }
    // The answer is how many words the messages have together.
    ensures words { result ≡ words_in (W.filled row.new) }
    ensures room { W.room row.new ≡ W.room row.old }
    ensures kept { W.kept row.old row.new }
{
    let mut sent = 0;
    'workers: for j in 0..columns.len() {
        let words = columns[j].as_slice();
        let _filled = row.fill(j, header_with(key, counts[j]), words);
        sent += words.len() as u64;
    }
    sent
}

/// Fills a row with the values of the cells that each worker asked the module for, in the order of its ask words, behind a header with
/// the key. `reply` is room for the words of one reply. Answers how many words the messages have together.
pub fn fill_replies<M: AddressMap, W: Row>(
    row: &mut W,
    key: Option<Key>,
    map: &M,
    part: u32,
    asked: &[Vec<u64>],
    cells: &Cells,
    reply: &mut Vec<u64>,
) -> u64
    requires part { part < (M.shape map.now).parts }
    requires cells { length cells.now ≡ (M.shape map.now).width part }
    requires workers { length (W.filled row.old) ≡ length asked.now }
    requires reply { (j : ℕ) → length (column (words_of asked.now) j) ≤ vec_capacity reply.old }
    requires room { vec_capacity reply.old ≤ W.room row.old }
    // Their number has 64 bits.
    requires few { length asked.now < 2 ^ 32 }
    requires short { vec_capacity reply.old < 2 ^ 32 }
    // The message to each worker is a header with the key, and the values of the cells that it asked the module for, in
    // order.
    ensures filled { IsRow (length asked.now) (reply_message key (M.shape map.now) part cells.now (words_of asked.now)) (W.filled row.new) }
    // The answer is how many words the messages have together.
    ensures words { result ≡ words_in (W.filled row.new) }
    ensures reply { vec_capacity reply.new ≡ vec_capacity reply.old }
    ensures room { W.room row.new ≡ W.room row.old }
    ensures kept { W.kept row.old row.new }
{
    let header = header_with(key, 0);
    let mut sent = 0;
    'workers: for j in 0..asked.len() {
        let words = asked[j].as_slice();
        lengthen(reply, words.len());
        let n = answer_asks(map, part, words, cells, reply.as_mut_slice());
        let _filled = row.fill(j, header, &reply[..n]);
        sent += n as u64;
    }
    sent
}
