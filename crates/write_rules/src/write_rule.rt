//! Write rules as ways to combine entries.

ghost use Rattle.std.specs.Prelude.{◌≡◌};
ghost use Rattle.write_rules.specs.Rule.{shares_reads, is_sum, written};

use crate::entry::Entry;
use crate::write::Write;
use pram_values::Kind;

/// How the writers of one cell are combined. Joining goes in any order.
pub trait WriteRule {
    ghost use Rattle.write_rules.specs.Combining.{Combining, Carries, combining_by};
    ghost use Rattle.pram_model.specs.declared.rule.Rule.{Rule as RuleName};

    /// The rule that it carries.
    ghost rule: { Self → RuleName };

    ghost combining: { Self → Combining };

    /// The entry of one writer.
    fn single(&self, processor: i64, value: i64) -> Entry
        ensures { result ≡ (combining self.now).single processor value };

    /// The entry of the writers of two entries.
    fn join(&self, a: Entry, b: Entry) -> Entry
        ensures { result ≡ (combining self.now).join a b };

    /// The value that an entry's writers leave, or the kind of their fault: WriteConflict, or
    /// Overflow of a sum.
    fn verdict(&self, entry: Entry) -> Result<i64, Kind>
        ensures { result ≡ (combining self.now).verdict entry };

    /// Whether processors may read one cell at the same time.
    fn reads_shared(&self) -> bool
        ensures { result ≡ shares_reads (rule self.now) };

    /// Whether the values of the writers are added up, so that an entry's value has 128 bits.
    fn sums(&self) -> bool
        // The answer is whether the rule is sum.
        ensures { result ≡ is_sum (rule self.now) };

    /// What is in a cell after some writes, where `old` is its value before them.
    fn value_after(&self, old: i64, writes: &[Write]) -> Result<i64, Kind>
        // What any list of writes leaves in a cell is what the rule gives: its old value if there are none, else a
        // value or a fault.
        ensures { result ≡ written (rule self.now) old writes.now };

    // An instance combines the writers of a cell as its rule does.
    ghost known: { (r : Self) → combining r ≡ combining_by (rule r) };

    // Entries may be joined two by two in any order, and writers with different indices come to what the rule gives for
    // them.
    ghost lawful: { (r : Self) → Carries (rule r) (combining r) };
}
