//! The words of a send.

ghost use Rattle.std.specs.Prelude.{◌≡◌, ◌<◌, ◌/◌, ◌^◌, ℕ, [], length, map as each, vec_capacity};
ghost use Rattle.superstep_machine.specs.WordReading.{put_length};
ghost use Rattle.combining.specs.AllModules.{column};
ghost use Rattle.worker_exchange.specs.Sends.{words_of, count_at, CanBeWritten, AreWritten};

use address_map::AddressMap;
use combining::{Asks, Puts};
use write_rules::WriteRule;

// Takes the words out of all lists.
fn clear_all(columns: &mut [Vec<u64>])
    ensures words { (j : ℕ) → j < length columns.old → column (words_of columns.new) j ≡ [] }
    ensures rooms { each vec_capacity columns.new ≡ each vec_capacity columns.old }
{
    'columns: for j in 0..columns.len() {
        columns[j].clear();
    }
}

// How many puts the words of each list are.
fn count_puts<R: WriteRule>(rule: &R, columns: &[Vec<u64>], counts: &mut [u32])
    requires long { length counts.old ≡ length columns.now }
    requires few { (j : ℕ) → j < length columns.now → length (column (words_of columns.now) j) < 2 ^ 32 }
    ensures counts { (j : ℕ) → j < length columns.now →
        count_at counts.new j ≡ length (column (words_of columns.now) j) / put_length (R.WriteRule.rule rule.now) }
{
    let size = if rule.sums() { 4 } else { 3 };
    'columns: for j in 0..columns.len() {
        counts[j] = (columns[j].len() / size) as u32;
    }
}

/// Writes the words of a send, to each module's list those of the puts and the asks that are held for it, in place of what was there;
/// and how many puts there are among them. It takes no memory.
pub fn pack_send<R: WriteRule, M: AddressMap>(
    rule: &R,
    map: &M,
    puts: &Puts,
    asks: &Asks,
    columns: &mut [Vec<u64>],
    counts: &mut [u32],
)
    requires held { CanBeWritten (R.WriteRule.rule rule.now) (M.shape map.now) (each vec_capacity columns.old) puts.now.held asks.now.held }
    requires counts { length counts.old ≡ (M.shape map.now).parts }
    // Each module's list has the words of what is held for it, the puts and then the asks, and the number of its puts
    // is told.
    ensures written { AreWritten (R.WriteRule.rule rule.now) (M.shape map.now) puts.now.held asks.now.held (words_of columns.new)
        counts.new }
    ensures rooms { each vec_capacity columns.new ≡ each vec_capacity columns.old }
{
    clear_all(columns);
    puts.pack_all(rule, map, columns);
    count_puts(rule, columns, counts);
    asks.pack_all(map, columns);
}
