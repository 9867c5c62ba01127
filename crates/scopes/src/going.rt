//! From one input of a scope to the next, whether its values are to be apart or not.

ghost use Rattle.std.specs.Prelude.{◌≡◌, ◌∷◌, [], true, IsTrue, IsFalse};
ghost use Rattle.scopes.specs.Lists.{AreWithin, are_apart};
ghost use Rattle.scopes.specs.Scopes.{inputs_from};

use crate::apart::settle;
use crate::scope::Scope;
use crate::step::step;

/// Goes to the first input from a list of values on, and says whether there is one.
pub(crate) fn begin(input: &mut [i64], scope: Scope) -> bool
    requires within { AreWithin scope.low scope.high input.old }
    ensures within { AreWithin scope.low scope.high input.new }
    ensures apart { IsTrue result → scope.apart ≡ true → are_apart input.new ≡ true }
    ensures first { IsTrue result → inputs_from scope input.old ≡ inputs_from scope input.new }
    ensures none { IsFalse result → inputs_from scope input.old ≡ [] }
{
    if !scope.apart {
        return true;
    }
    settle(input, scope.low, scope.high)
}

/// Goes from an input to the next one, and says whether there is one.
pub(crate) fn go_on(input: &mut [i64], scope: Scope) -> bool
    requires within { AreWithin scope.low scope.high input.old }
    requires apart { scope.apart ≡ true → are_apart input.old ≡ true }
    ensures within { AreWithin scope.low scope.high input.new }
    ensures apart { IsTrue result → scope.apart ≡ true → are_apart input.new ≡ true }
    ensures next { IsTrue result → inputs_from scope input.old ≡ input.old ∷ inputs_from scope input.new }
    ensures last { IsFalse result → inputs_from scope input.old ≡ input.old ∷ [] }
{
    if !step(input, scope.low, scope.high) {
        return false;
    }
    if !scope.apart {
        return true;
    }
    settle(input, scope.low, scope.high)
}
