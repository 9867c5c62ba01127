//! Concurrent writes of a common value.

ghost use Rattle.std.specs.Prelude.{◌≡◌};
ghost use Rattle.write_rules.specs.Combining as spec;

use crate::entry::Entry;
use crate::values::common_of;
use crate::write::Write;
use crate::write_rule::WriteRule;
use pram_values::Kind;

/// Concurrent writes of one common value.
#[derive(Clone, Copy, Debug, PartialEq, Eq)]
pub struct Common;

// Whether two entries clash.
fn differ(a: Entry, b: Entry) -> bool
    ensures { result ≡ spec.differ a b }
{
    a.clash || b.clash || a.value != b.value
}

impl WriteRule for Common {
    ghost use Rattle.std.specs.Prelude.{refl};
    ghost use Rattle.write_rules.specs.Combining.{common};
    ghost use Rattle.write_rules.specs.CommonLaws.{common_carries};
    ghost use Rattle.pram_model.specs.declared.rule.Rule.TheVariants as name;

    ghost rule = { λ r. name.Common };

    ghost combining = { λ r. common };

    fn single(&self, processor: i64, value: i64) -> Entry {
        Entry::of(processor, value)
    }

    fn join(&self, a: Entry, b: Entry) -> Entry {
        a.first_of(b, differ(a, b))
    }

    fn verdict(&self, entry: Entry) -> Result<i64, Kind> {
        entry.unless_clash()
    }

    fn reads_shared(&self) -> bool {
        true
    }

    fn sums(&self) -> bool {
        false
    }

    fn value_after(&self, old: i64, writes: &[Write]) -> Result<i64, Kind> {
        match writes {
            [] => Ok(old),
            [first, others @ ..] => common_of(first.value, others),
        }
    }

    ghost known = { λ r. refl };

    ghost lawful = { λ r. common_carries };
}
