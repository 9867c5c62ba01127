//! Whether a scope has a list of values.

ghost use Rattle.std.specs.Prelude.{◌≡◌};
ghost use Rattle.std.specs.List.{list_all};
ghost use Rattle.scopes.specs.Wrong as spec;

use crate::apart::is_apart;
use crate::scope::Scope;

// Whether each value is from `low` to `high`.
fn are_within(input: &[i64], low: i64, high: i64) -> bool
    ensures { result ≡ list_all (spec.is_within low high) input.now }
{
    for value in input {
        if *value < low || high < *value {
            return false;
        }
    }
    true
}

/// Whether a scope has a list of values as an input.
pub(crate) fn is_input(scope: Scope, input: &[i64]) -> bool
    ensures { result ≡ spec.is_input scope input.now }
{
    input.len() == scope.count as usize
        && are_within(input, scope.low, scope.high)
        && (!scope.apart || is_apart(input))
}
