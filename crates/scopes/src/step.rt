//! The step from a list of values to the next one, in place.

ghost use Rattle.std.specs.Prelude.{◌≡◌, ◌≤ℤ◌, ◌∷◌, [], IsTrue, IsFalse};
ghost use Rattle.scopes.specs.Lists.{AreWithin, lists_from};

/// Steps to the next list of values from `low` to `high`: the last value that can grow grows, and those behind it are the least. Where none
/// can, the list was the last one.
pub(crate) fn step(input: &mut [i64], low: i64, high: i64) -> bool
    requires filled { low ≤ℤ high }
    requires within { AreWithin low high input.old }
    ensures within { AreWithin low high input.new }
    ensures next { IsTrue result → lists_from low high input.old ≡ input.old ∷ lists_from low high input.new }
    ensures last { IsFalse result → lists_from low high input.old ≡ input.old ∷ [] }
{
    let mut at = input.len();
    while at > 0 {
        at -= 1;
        if input[at] < high {
            input[at] += 1;
            return true;
        }
        input[at] = low;
    }
    false
}
