//! How the writers of one cell are combined, by the rule of the code.

ghost use Rattle.std.specs.Prelude.{◌≡◌, Some};
ghost use Rattle.superstep_machine.specs.Setting.{combining};
ghost use Rattle.superstep_machine.specs.Sending as spec;

use pram_model::Rule;
use pram_values::Kind;
use write_rules::{Entry, RuleBody, WriteRule, under};

// The entry of one writer.
#[derive(Clone, Copy, Debug)]
struct OneWriter {
    processor: i64,
    value: i64,
}

impl RuleBody for OneWriter {
    ghost use Rattle.std.specs.Prelude.{◌≡◌};
    ghost use Rattle.superstep_machine.specs.Setting.{combining};

    type Answer = Entry;

    ghost can_run = { λ b rule. Unit {0} };

    ghost gives = { λ b rule entry. entry ≡ (combining rule).single b.processor b.value };

    fn run<R: WriteRule>(self, rule: &R) -> Entry {
        rule.single(self.processor, self.value)
    }
}

// Two entries as one.
#[derive(Clone, Copy, Debug)]
struct Pair {
    first: Entry,
    second: Entry,
}

impl RuleBody for Pair {
    ghost use Rattle.std.specs.Prelude.{◌≡◌};
    ghost use Rattle.superstep_machine.specs.Setting.{combining};

    type Answer = Entry;

    ghost can_run = { λ b rule. Unit {0} };

    ghost gives = { λ b rule entry. entry ≡ (combining rule).join b.first b.second };

    fn run<R: WriteRule>(self, rule: &R) -> Entry {
        rule.join(self.first, self.second)
    }
}

// What the writers of an entry leave.
#[derive(Clone, Copy, Debug)]
struct Judged {
    entry: Entry,
}

impl RuleBody for Judged {
    ghost use Rattle.std.specs.Prelude.{◌≡◌};
    ghost use Rattle.superstep_machine.specs.Setting.{combining};

    type Answer = Result<i64, Kind>;

    ghost can_run = { λ b rule. Unit {0} };

    ghost gives = { λ b rule verdict. verdict ≡ (combining rule).verdict b.entry };

    fn run<R: WriteRule>(self, rule: &R) -> Result<i64, Kind> {
        rule.verdict(self.entry)
    }
}

/// The entry of one writer.
pub fn single(rule: Rule, processor: i64, value: i64) -> Entry
    ensures { result ≡ (combining rule).single processor value }
{
    under(rule, OneWriter { processor, value })
}

/// What some writers of one cell and some others come to.
pub fn join(rule: Rule, a: Option<Entry>, b: Option<Entry>) -> Option<Entry>
    ensures { result ≡ spec.join rule a b }
{
    match (a, b) {
        (None, _) => b,
        (_, None) => a,
        (Some(x), Some(y)) => Some(under(
            rule,
            Pair {
                first: x,
                second: y,
            },
        )),
    }
}

// The entry of one writer, under a rule that is known by its type.
fn one<R: WriteRule>(rule: &R, processor: i64, value: i64) -> Entry
    ensures { result ≡ (combining (R.rule rule.now)).single processor value }
{
    rule.single(processor, value)
}

// Two entries as one.
fn both<R: WriteRule>(rule: &R, a: Entry, b: Entry) -> Entry
    ensures { result ≡ (combining (R.rule rule.now)).join a b }
{
    rule.join(a, b)
}

/// One writer more of a cell, under a rule that is known by its type.
pub fn with_writer<R: WriteRule>(
    rule: &R,
    processor: i64,
    value: i64,
    held: Option<Entry>,
) -> Option<Entry>
    ensures { result ≡ spec.join (R.rule rule.now) (Some ((combining (R.rule rule.now)).single processor value)) held }
{
    let writer = one(rule, processor, value);
    match held {
        None => Some(writer),
        Some(entry) => Some(both(rule, writer, entry)),
    }
}

/// What the writers of a cell leave, or why they may not.
pub fn verdict_on(rule: Rule, held: Option<Entry>) -> Option<Result<i64, Kind>>
    ensures { result ≡ spec.verdict_on rule held }
{
    match held {
        None => None,
        Some(entry) => Some(under(rule, Judged { entry })),
    }
}
