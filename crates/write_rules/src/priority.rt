//! Concurrent writes by priority.

ghost use Rattle.std.specs.Prelude.{◌≡◌};

use crate::entry::Entry;
use crate::values::least_of;
use crate::write::Write;
use crate::write_rule::WriteRule;
use pram_values::Kind;

/// Of concurrent writers the one of least index succeeds.
#[derive(Clone, Copy, Debug, PartialEq, Eq)]
pub struct Priority;

impl WriteRule for Priority {
    ghost use Rattle.std.specs.Prelude.{refl};
    ghost use Rattle.write_rules.specs.Combining.{priority};
    ghost use Rattle.write_rules.specs.PriorityLaws.{priority_carries};
    ghost use Rattle.pram_model.specs.declared.rule.Rule.TheVariants as name;

    ghost rule = { λ r. name.Priority };

    ghost combining = { λ r. priority };

    fn single(&self, processor: i64, value: i64) -> Entry {
        Entry::of(processor, value)
    }

    fn join(&self, a: Entry, b: Entry) -> Entry {
        a.first_of(b, false)
    }

    fn verdict(&self, entry: Entry) -> Result<i64, Kind> {
        entry.narrowed()
    }

    fn reads_shared(&self) -> bool {
        true
    }

    fn sums(&self) -> bool {
        false
    }

    fn value_after(&self, old: i64, writes: &[Write]) -> Result<i64, Kind> {
        match writes {
            [] => Ok(old),
            [first, others @ ..] => Ok(least_of(*first, others)),
        }
    }

    ghost known = { λ r. refl };

    ghost lawful = { λ r. priority_carries };
}
