//! What a write rule gives for the writes to one cell.

ghost use Rattle.std.specs.Prelude.{◌≡◌};
ghost use Rattle.write_rules.specs.Rule.{written};

use pram_trees::Rule;
use pram_values::Kind;
use write_rules::{RuleBody, Write, WriteRule, under};

// The writes to a cell, with its value before them.
#[derive(Drop)]
struct Writes<'a> {
    old: i64,
    writes: &'a [Write],
}

impl<'a> RuleBody for Writes<'a> {
    ghost use Rattle.std.specs.Prelude.{◌≡◌};
    ghost use Rattle.write_rules.specs.Rule.{written};

    type Answer = Result<i64, Kind>;

    ghost can_run = { λ b rule. Unit {0} };

    ghost gives = { λ b rule value. value ≡ written rule b.old b.writes.now };

    fn run<R: WriteRule>(self, rule: &R) -> Result<i64, Kind> {
        rule.value_after(self.old, self.writes)
    }
}

/// What is in a cell after some writes, where `old` is its value before them.
pub fn value_after(rule: Rule, old: i64, writes: &[Write]) -> Result<i64, Kind>
    ensures { result ≡ written rule old writes.now }
{
    under(rule, Writes { old, writes })
}
