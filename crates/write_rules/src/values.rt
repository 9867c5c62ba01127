//! What a rule gives for the writes to one cell.

ghost use Rattle.std.specs.Prelude.{◌≡◌, pos, ◌+ℤ◌, ◌≤ℤ◌, ◌-◌, ◌^◌, neg_ℤ, FitsSigned};
ghost use Rattle.std.specs.Int.{w64, w128};
ghost use Rattle.write_rules.specs.Rule.{only_value, common_value, least_writer, sum_of};
ghost use Rattle.pram_values.specs.Value.{checked};

use crate::write::Write;
use pram_values::Kind;

// The value of the only writer.
pub(crate) fn only_of(first: Write, others: &[Write]) -> Result<i64, Kind>
    ensures { result ≡ only_value first others.now }
{
    if others.is_empty() {
        Ok(first.value)
    } else {
        Err(Kind::WriteConflict)
    }
}

// The value, if all the writers write it.
#[tactic(auto, using(crate::proofs::Writes::common_starts, crate::proofs::Writes::common_goes, crate::proofs::Writes::common_clashes, crate::proofs::Writes::common_ends))]
pub(crate) fn common_of(value: i64, writes: &[Write]) -> Result<i64, Kind>
    ensures { result ≡ common_value value writes.now }
{
    for write in writes {
        if value != write.value {
            return Err(Kind::WriteConflict);
        }
    }
    Ok(value)
}

// The value of the writer of least index.
#[tactic(auto, using(crate::proofs::Writes::least_starts, crate::proofs::Writes::least_stays, crate::proofs::Writes::least_goes, crate::proofs::Writes::least_ends))]
pub(crate) fn least_of(first: Write, writes: &[Write]) -> i64
    ensures { result ≡ (least_writer first writes.now).value }
{
    let mut least = first;
    for write in writes {
        if least.processor > write.processor {
            least = *write;
        }
    }
    least.value
}

// The sum of all values, if it is an i64.
#[tactic(auto, using(crate::proofs::Writes::sum_starts, crate::proofs::Writes::sum_goes, crate::proofs::Writes::sum_ends, crate::proofs::Writes::sum_low, crate::proofs::Writes::sum_high))]
fn total(writes: &[Write]) -> i128
    ensures { result ≡ sum_of writes.now }
{
    let mut sum: i128 = 0;
    for write in writes {
        sum = with_value(sum, write);
    }
    sum
}

// One more value.
fn with_value(sum: i128, write: &Write) -> i128
    requires low { neg_ℤ (pos (2 ^ 127 - 2 ^ 63)) ≤ℤ sum }
    requires high { sum ≤ℤ pos (2 ^ 127 - 2 ^ 63) }
    ensures value { result ≡ sum +ℤ write.now.value }
    ensures fits { FitsSigned w64 write.now.value }
    ensures sum_fits { FitsSigned w128 result }
{
    sum + i128::from(write.value)
}

// The sum, if it is an i64.
#[tactic(auto, using(pram_values::proofs::Checked::checked_some, pram_values::proofs::Checked::checked_none))]
pub(crate) fn checked_total(writes: &[Write]) -> Result<i64, Kind>
    ensures { result ≡ checked (sum_of writes.now) }
{
    match i64::try_from(total(writes)) {
        Ok(value) => Ok(value),
        Err(_) => Err(Kind::Overflow),
    }
}
