//! Asks in ascending order, which need no search.

ghost use Rattle.std.specs.Prelude.{◌≡◌, ◌≤◌, ◌<◌, ◌+◌, ◌^◌, length, take, vec_capacity};
ghost use Rattle.combining.specs.Places.{AscendFrom, IsAbove};
ghost use Rattle.combining.specs.Columns.{AreBelow};
ghost use Rattle.combining.specs.Held.{paired};
ghost use Rattle.combining.specs.Asked.{ask_at};
ghost use Rattle.combining.specs.Adding.{by_read, asked_after};

use crate::states::AskStates;
use crate::words::ask_key;

/// The least key that is greater than some keys which ascend.
#[inline(always)]
pub(crate) fn least_above(keys: &[u32]) -> u64
    requires { AscendFrom 0 keys.now }
    ensures { IsAbove result keys.now }
{
    match keys.last() {
        Some(last) => u64::from(*last) + 1,
        None => 0,
    }
}

/// Adds the asks by a read for the first of some cells behind those that are held, as long as their keys ascend; an ask for the cell
/// of the last one marks that one. Says for how many cells it did. The lists are passed by value, so that their lengths stay in registers
/// over the loop.
#[inline(never)]
pub(crate) fn append_ascending(
    mut keys: Vec<u32>,
    mut asked: AskStates,
    ordinal: u32,
    cells: &[Option<u32>],
) -> (Vec<u32>, AskStates, usize)
    requires ascend { AscendFrom 0 keys.items }
    requires long { length asked.items ≡ length keys.items }
    requires room { length keys.items + length cells.now ≤ vec_capacity keys }
    requires rooms { asked.room ≡ vec_capacity keys }
    requires ordinal { ordinal < 8 }
    requires below { AreBelow (2 ^ 20) cells.now }
    ensures held { paired ask_at result.0.items result.1.items
        ≡ asked_after (by_read ordinal (take result.2 cells.now)) (paired ask_at keys.items asked.items) }
    ensures ascend { AscendFrom 0 result.0.items }
    ensures long { length result.1.items ≡ length result.0.items }
    ensures few { result.2 ≤ length cells.now }
    ensures most { length result.0.items ≤ length keys.items + result.2 }
    ensures keys { vec_capacity result.0 ≡ vec_capacity keys }
    ensures asked { result.1.room ≡ asked.room }
{
    let mut least = least_above(keys.as_slice());
    'processors: for j in 0..cells.len() {
        if let Some(cell) = cells[j] {
            let key = ask_key(ordinal, cell);
            let next = u64::from(key) + 1;
            if least < next {
                keys.push_reserved(key);
                asked.push();
                least = next;
            } else if least == next {
                asked.mark(keys.len() - 1);
            } else {
                return (keys, asked, j);
            }
        }
    }
    (keys, asked, cells.len())
}
