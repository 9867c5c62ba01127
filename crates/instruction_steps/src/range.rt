//! How many processors a range has.

ghost use Rattle.std.specs.Prelude.{◌≡◌, ◌≤ℤ◌, ◌+ℤ◌, ◌^◌, pos, IfOk};
ghost use Rattle.superstep_machine.specs.Results as spec;

use pram_values::Kind;

/// How many there are from low to high, at most `procs`.
pub fn range_width(procs: u32, low: i64, high: i64) -> Result<u32, Kind>
    ensures value { result ≡ spec.range_width procs low high }
    ensures within { IfOk result (λ n. (low +ℤ pos n) ≤ℤ pos (2 ^ 63)) }
{
    if high < low {
        return Ok(0);
    }
    let last = i128::from(high) - i128::from(low);
    if last < i128::from(procs) {
        Ok(last as u32 + 1)
    } else {
        Err(Kind::TooWide)
    }
}
