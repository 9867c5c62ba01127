//! What a module answers to the asks of one worker.

ghost use Rattle.std.specs.Prelude.{◌≡◌, ◌<◌, ◌≤◌, length, take, drop};
ghost use Rattle.combining.specs.Answers.{answers};
ghost use Rattle.combining.specs.Gathering.{value_at};

use crate::cells::Cells;
use crate::words::{AskWords, next};
use address_map::AddressMap;

// The value at an offset.
#[inline(always)]
fn value_of(values: &[i64], offset: u32) -> i64
    requires { offset < length values.now }
    ensures { result ≡ value_at values.now offset }
{
    values[offset as usize]
}

// Writes the words of a module's reply, as `answer_asks` does. The cells' values are a slice, and the loop has a function of its own, so
// that all that it needs stays in registers.
#[inline(never)]
fn answer_words<M: AddressMap>(
    map: &M,
    part: u32,
    words: &[u64],
    values: &[i64],
    out: &mut [u64],
) -> usize
    requires values { length values.now ≡ (M.shape map.now).width part }
    requires room { length words.now ≤ length out.old }
    ensures words { take result out.new ≡ answers (M.shape map.now) part values.now words.now }
    ensures count { result ≡ length (answers (M.shape map.now) part values.now words.now) }
    ensures rest { drop result out.new ≡ drop result out.old }
    ensures length { length out.new ≡ length out.old }
{
    let format = AskWords { map, part };
    let mut n = 0;
    let mut rest = words;
    while let Some((ask, behind)) = next(&format, rest) {
        out[n] = value_of(values, ask.offset).cast_unsigned();
        n += 1;
        rest = behind;
    }
    n
}

/// Writes the words of a module's reply to one worker, and says how many they are: for each of the
/// worker's ask words the value of its cell, in order. Any words are taken; what no worker asks of the
/// module is passed over. What is behind the words stays.
pub fn answer_asks<M: AddressMap>(
    map: &M,
    part: u32,
    words: &[u64],
    cells: &Cells,
    out: &mut [u64],
) -> usize
    requires part { part < (M.shape map.now).parts }
    requires cells { length cells.now ≡ (M.shape map.now).width part }
    requires room { length words.now ≤ length out.old }
    // Of any ask words, the answer has the values of the cells that they ask of the module, in order.
    ensures words { take result out.new ≡ answers (M.shape map.now) part cells.now words.now }
    ensures count { result ≡ length (answers (M.shape map.now) part cells.now words.now) }
    ensures rest { drop result out.new ≡ drop result out.old }
    ensures length { length out.new ≡ length out.old }
{
    answer_words(map, part, words, cells.values.as_slice(), out)
}
