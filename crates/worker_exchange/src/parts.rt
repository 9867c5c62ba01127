//! The words of each message, and in a send those of its puts and of its asks.

ghost use Rattle.std.specs.Prelude.{◌≡◌, ◌<◌, ◌≤◌, ◌*◌, ℕ, length, min};
ghost use Rattle.superstep_machine.specs.HeaderWords.{read_header};
ghost use Rattle.superstep_machine.specs.WordReading.{put_length as spec_put_length, put_part, ask_part};
ghost use Rattle.worker_exchange.specs.Rows.{message_at};
ghost use Rattle.worker_exchange.specs.Parts.{part_at};

use crate::column::Column;
use superstep_machine::MessageHeader;
use write_rules::WriteRule;

// How many of the words of a message are those of puts.
fn put_words<R: WriteRule>(rule: &R, puts: u32, words: &[u64]) -> usize
    ensures least { result ≡ min (puts * spec_put_length (R.WriteRule.rule rule.now)) (length words.now) }
{
    let size = if rule.sums() { 4 } else { 3 };
    let count = puts as usize * size;
    count.min(words.len())
}

// The words of the puts of a message.
fn puts_of<'w, R: WriteRule>(rule: &R, header: MessageHeader, words: &'w [u64]) -> &'w [u64]
    ensures { result.now ≡ put_part (R.WriteRule.rule rule.now) header words.now }
{
    let n = put_words(rule, header.puts, words);
    &words[..n]
}

/// The words of the asks of a message.
pub(crate) fn asks_of<'w, R: WriteRule>(
    rule: &R,
    header: MessageHeader,
    words: &'w [u64],
) -> &'w [u64]
    ensures { result.now ≡ ask_part (R.WriteRule.rule rule.now) header words.now }
{
    let n = put_words(rule, header.puts, words);
    &words[n..]
}

/// The words of the puts of each message.
pub(crate) fn put_parts<'c, R: WriteRule, C: Column>(
    rule: &R,
    column: &'c C,
    workers: usize,
    parts: &mut [&'c [u64]],
)
    requires column { length (C.came column.now) ≡ workers }
    requires room { workers ≤ length parts.old }
    ensures each { (i : ℕ) → i < workers → part_at parts.new i
        ≡ put_part (R.WriteRule.rule rule.now) (read_header (message_at (C.came column.now) i).header)
        (message_at (C.came column.now) i).words }
{
    'messages: for i in 0..workers {
        let header = MessageHeader::from_words(column.header(i));
        parts[i] = puts_of(rule, header, column.words(i));
    }
}

/// The words of the asks of each message.
pub(crate) fn ask_parts<'c, R: WriteRule, C: Column>(
    rule: &R,
    column: &'c C,
    workers: usize,
    parts: &mut [&'c [u64]],
)
    requires column { length (C.came column.now) ≡ workers }
    requires room { workers ≤ length parts.old }
    ensures each { (i : ℕ) → i < workers → part_at parts.new i
        ≡ ask_part (R.WriteRule.rule rule.now) (read_header (message_at (C.came column.now) i).header)
        (message_at (C.came column.now) i).words }
{
    'messages: for i in 0..workers {
        let header = MessageHeader::from_words(column.header(i));
        parts[i] = asks_of(rule, header, column.words(i));
    }
}

/// The words of each message.
pub(crate) fn word_parts<'c, C: Column>(column: &'c C, workers: usize, parts: &mut [&'c [u64]])
    requires column { length (C.came column.now) ≡ workers }
    requires room { workers ≤ length parts.old }
    ensures each { (i : ℕ) → i < workers → part_at parts.new i ≡ (message_at (C.came column.now) i).words }
{
    'messages: for i in 0..workers {
        parts[i] = column.words(i);
    }
}
