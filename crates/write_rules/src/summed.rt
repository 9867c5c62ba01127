//! Concurrent writes that are summed.

ghost use Rattle.std.specs.Prelude.{◌≡◌, ◌+ℤ◌, int_le, if◌then◌else◌};
ghost use Rattle.std.specs.Int.{w128, int_wrap};

use crate::entry::Entry;
use crate::values::checked_total;
use crate::write::Write;
use crate::write_rule::WriteRule;
use pram_values::Kind;

/// Concurrent writers leave the sum of their values. The sum is kept in 128 bits, which writers
/// with different indices don't pass; an entry may be joined only once.
#[derive(Clone, Copy, Debug, PartialEq, Eq)]
pub struct Summed;

// The lesser owner.
fn least_owner(a: Entry, b: Entry) -> i64
    ensures { result ≡ (if int_le a.owner b.owner then a.owner else b.owner) }
{
    if a.owner <= b.owner { a.owner } else { b.owner }
}

// The sum, within 128 bits.
fn added(x: i128, y: i128) -> i128
    ensures { result ≡ int_wrap w128 (x +ℤ y) }
{
    x.wrapping_add(y)
}

impl WriteRule for Summed {
    ghost use Rattle.std.specs.Prelude.{refl};
    ghost use Rattle.write_rules.specs.Combining.{summed};
    ghost use Rattle.write_rules.specs.SumLaws.{summed_carries};
    ghost use Rattle.pram_model.specs.declared.rule.Rule.TheVariants as name;

    ghost rule = { λ r. name.Sum };

    ghost combining = { λ r. summed };

    fn single(&self, processor: i64, value: i64) -> Entry {
        Entry::of(processor, value)
    }

    fn join(&self, a: Entry, b: Entry) -> Entry {
        Entry {
            owner: least_owner(a, b),
            value: added(a.value, b.value),
            clash: false,
        }
    }

    fn verdict(&self, entry: Entry) -> Result<i64, Kind> {
        entry.narrowed()
    }

    fn reads_shared(&self) -> bool {
        true
    }

    fn sums(&self) -> bool {
        true
    }

    fn value_after(&self, old: i64, writes: &[Write]) -> Result<i64, Kind> {
        match writes {
            [] => Ok(old),
            _ => checked_total(writes),
        }
    }

    ghost known = { λ r. refl };

    ghost lawful = { λ r. summed_carries };
}
