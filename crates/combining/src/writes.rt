//! The writes of a row of processors, held in one loop as long as their cells ascend.

ghost use Rattle.std.specs.Prelude.{◌≡◌, ◌≤◌, ◌<◌, ◌+◌, ℕ, length, vec_capacity};
ghost use Rattle.combining.specs.Places.{AscendFrom};
ghost use Rattle.combining.specs.Compact.{held_at};
ghost use Rattle.combining.specs.Held.{paired, held_after};
ghost use Rattle.combining.specs.Writing.{first_writes};

use crate::ascending::least_above;
use crate::compact::Compact;
use write_rules::WriteRule;

/// The writes of a row of processors, by their places in the row.
pub trait Writes {
    ghost use Rattle.std.specs.Prelude.{◌≡◌, ℕ, ℤ, Option};

    /// The number of the processor at each place.
    ghost number: { Self → ℕ → ℤ };

    /// The cell and the value that it writes, if it writes.
    ghost written: { Self → ℕ → Option (ℕ × ℤ) };

    /// Which places there are.
    ghost has: { Self → ℕ → Type 0 };

    /// The number of the processor at a place.
    fn processor(&self, place: usize) -> i64
        requires { has self.now place }
        ensures { result ≡ number self.now place };

    /// The cell and the value that it writes, if it writes.
    fn write(&self, place: usize) -> Option<(u32, i64)>
        requires { has self.now place }
        ensures { result ≡ written self.now place };
}

/// Adds the writes of the first processors of a row behind those that are held, as long as their cells ascend. Says of how many
/// processors it did. The lists are passed by value, so that their lengths stay in registers over the loop.
#[inline(never)]
pub(crate) fn append_writes<R: WriteRule, W: Writes>(
    rule: &R,
    writes: &W,
    count: usize,
    mut keys: Vec<u32>,
    mut entries: Vec<Compact>,
) -> (Vec<u32>, Vec<Compact>, usize)
    requires row { (j : ℕ) → j < count → W.has writes.now j }
    requires ascend { AscendFrom 0 keys.items }
    requires long { length entries.items ≡ length keys.items }
    requires room { length keys.items + count ≤ vec_capacity keys }
    requires rooms { vec_capacity entries ≡ vec_capacity keys }
    ensures held { paired held_at result.0.items result.1.items ≡ held_after (R.WriteRule.rule rule.now)
        (first_writes (W.number writes.now) (W.written writes.now) result.2) (paired held_at keys.items entries.items) }
    ensures ascend { AscendFrom 0 result.0.items }
    ensures long { length result.1.items ≡ length result.0.items }
    ensures few { result.2 ≤ count }
    ensures most { length result.0.items ≤ length keys.items + result.2 }
    ensures keys { vec_capacity result.0 ≡ vec_capacity keys }
    ensures entries { vec_capacity result.1 ≡ vec_capacity entries }
{
    let mut least = least_above(keys.as_slice());
    'processors: for j in 0..count {
        if let Some((cell, value)) = writes.write(j) {
            let next = u64::from(cell) + 1;
            if next <= least {
                return (keys, entries, j);
            }
            let entry = rule.single(writes.processor(j), value);
            keys.push_reserved(cell);
            entries.push_reserved(Compact::of(entry));
            least = next;
        }
    }
    (keys, entries, count)
}
