//! Exclusive writes.

ghost use Rattle.std.specs.Prelude.{◌≡◌};

use crate::entry::Entry;
use crate::values::only_of;
use crate::write::Write;
use crate::write_rule::WriteRule;
use pram_values::Kind;

/// Exclusive writes, with shared reads (CREW) or without (EREW).
#[derive(Clone, Copy, Debug, PartialEq, Eq)]
pub struct Exclusive {
    pub shared_reads: bool,
}

impl WriteRule for Exclusive {
    ghost use Rattle.write_rules.specs.Combining.{exclusive};
    ghost use Rattle.write_rules.specs.ExclusiveLaws.{exclusive_carries};
    ghost use Rattle.write_rules.specs.Combining.{exclusive_rule, exclusive_known};

    ghost rule = { λ r. exclusive_rule r.shared_reads };

    ghost combining = { λ r. exclusive };

    fn single(&self, processor: i64, value: i64) -> Entry {
        Entry::of(processor, value)
    }

    fn join(&self, a: Entry, b: Entry) -> Entry {
        a.first_of(b, true)
    }

    fn verdict(&self, entry: Entry) -> Result<i64, Kind> {
        entry.unless_clash()
    }

    fn reads_shared(&self) -> bool {
        self.shared_reads
    }

    fn sums(&self) -> bool {
        false
    }

    fn value_after(&self, old: i64, writes: &[Write]) -> Result<i64, Kind> {
        match writes {
            [] => Ok(old),
            [first, others @ ..] => only_of(*first, others),
        }
    }

    ghost known = { λ r. exclusive_known r.shared_reads };

    ghost lawful = { λ r. exclusive_carries r.shared_reads };
}
