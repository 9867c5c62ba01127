//! Lists in which no value stands twice: steps to the next one, in place.

ghost use Rattle.std.specs.Prelude.{◌≡◌, ◌≤ℤ◌, ◌<◌, ◌+◌, ◌-◌, ◌++◌, [], true, false, IsTrue, IsFalse, IfSome, IfNone, length, replicate};
ghost use Rattle.std.specs.Prelude.{take};
ghost use Rattle.std.specs.List.{filter, list_any};
ghost use Rattle.scopes.specs.Lists.{AreWithin, are_apart, lists_from, same_value};

use crate::step::step;

// Whether a value stands in a list.
fn stands_in(front: &[i64], value: i64) -> bool
    ensures { result ≡ list_any (λ v. same_value v value) front.now }
{
    for other in front {
        if *other == value {
            return true;
        }
    }
    false
}

// The first place of a value that stands before it too.
fn clash(input: &[i64]) -> Option<usize>
    ensures none { IfNone result (are_apart input.now ≡ true) }
    ensures some { IfSome result (λ at. (at < length input.now) × (are_apart (take (at + 1) input.now) ≡ false)) }
{
    for at in 0..input.len() {
        if stands_in(&input[..at], input[at]) {
            return Some(at);
        }
    }
    None
}

/// Whether no value stands twice.
pub(crate) fn is_apart(input: &[i64]) -> bool
    ensures { result ≡ are_apart input.now }
{
    clash(input).is_none()
}

// Makes the values from a place on the greatest ones.
fn top(input: &mut [i64], from: usize, high: i64)
    requires place { from < length input.old + 1 }
    ensures { input.new ≡ take from input.old ++ replicate (length input.old - from) high }
{
    for place in from..input.len() {
        input[place] = high;
    }
}

// Steps past all lists that begin with the values up to one that clashes.
fn pass(input: &mut [i64], at: usize, low: i64, high: i64) -> bool
    requires filled { low ≤ℤ high }
    requires within { AreWithin low high input.old }
    requires place { at < length input.old }
    requires clashes { are_apart (take (at + 1) input.old) ≡ false }
    ensures within { AreWithin low high input.new }
    ensures next { IsTrue result →
        filter are_apart (lists_from low high input.old) ≡ filter are_apart (lists_from low high input.new) }
    ensures fewer { IsTrue result → length (lists_from low high input.new) < length (lists_from low high input.old) }
    ensures last { IsFalse result → filter are_apart (lists_from low high input.old) ≡ [] }
{
    top(input, at + 1, high);
    step(input, low, high)
}

/// Goes on to the first list, from this one on, whose values are apart, and says whether there is one.
pub(crate) fn settle(input: &mut [i64], low: i64, high: i64) -> bool
    requires filled { low ≤ℤ high }
    requires within { AreWithin low high input.old }
    ensures within { AreWithin low high input.new }
    ensures apart { IsTrue result → are_apart input.new ≡ true }
    ensures next { IsTrue result →
        filter are_apart (lists_from low high input.old) ≡ filter are_apart (lists_from low high input.new) }
    ensures last { IsFalse result → filter are_apart (lists_from low high input.old) ≡ [] }
{
    while let Some(at) = clash(input) {
        if !pass(input, at, low, high) {
            return false;
        }
    }
    true
}
