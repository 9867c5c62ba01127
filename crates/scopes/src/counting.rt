//! How many inputs a scope has.

ghost use Rattle.std.specs.Prelude.{◌≡◌, ◌<◌, ◌≤◌, ◌-◌, ◌+◌, ◌^◌, ◌+ℤ◌, ◌≤ℤ◌, true, pos, length, if◌then◌else◌, IfSome, IfNone};
ghost use Rattle.scopes.specs.Scopes.{inputs_of};

use crate::scope::Scope;

// How many values an interval has.
fn width(low: i64, high: i64) -> u128
    requires filled { low ≤ℤ high }
    ensures wide { high +ℤ pos 1 ≡ low +ℤ pos result }
    ensures most { result ≤ 2 ^ 64 }
    ensures one { 1 ≤ result }
{
    (i128::from(high) - i128::from(low) + 1) as u128
}

// How many values may stand behind so many others.
fn choices(apart: bool, wide: u128, place: u32) -> u128
    requires left { apart ≡ true → place < wide }
    ensures { result ≡ (if apart then wide - place else wide) }
{
    if apart {
        wide - u128::from(place)
    } else {
        wide
    }
}

/// How many inputs a scope has, where 64 bits can count them.
pub fn input_count(scope: Scope) -> Option<u64>
    // A number that is told is that of the scope's inputs.
    ensures some { IfSome result (λ n. length (inputs_of scope) ≡ n) }
    // None is told only where 64 bits can't count them.
    ensures none { IfNone result (2 ^ 64 ≤ length (inputs_of scope)) }
{
    let wide = width(scope.low, scope.high);
    if scope.apart && u128::from(scope.count) > wide {
        return Some(0);
    }
    let mut product: u128 = 1;
    for place in 0..scope.count {
        product *= choices(scope.apart, wide, place);
        if product > u128::from(u64::MAX) {
            return None;
        }
    }
    Some(product as u64)
}
