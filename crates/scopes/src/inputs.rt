//! The inputs of a scope, one after the other.

ghost use Rattle.std.specs.Prelude.{◌≡◌, ◌∷◌, [], true, false, length, drop, IsTrue, IsFalse, IfOk, Some, slice_get};
ghost use Rattle.scopes.specs.Lists.{AreWithin, are_apart};
ghost use Rattle.scopes.specs.Scopes.{inputs_left, inputs_of};

use crate::going::{begin, go_on};
use crate::scope::Scope;
use std::alloc::{AllocError, Global};

/// Where one stands among the inputs of a scope: at one of them, or past the last.
#[derive(Drop)]
pub struct Inputs {
    scope: Scope,
    input: Vec<i64>,
    over: bool,
    ghost sized: { length input.items ≡ scope.count },
    ghost within: { AreWithin scope.low scope.high input.items },
    ghost apart: { over ≡ false → scope.apart ≡ true → are_apart input.items ≡ true },
}

/// Before the first input of a scope: all are left.
pub fn first_input(alloc: Global, scope: Scope) -> Result<Inputs, AllocError>
    ensures scope { IfOk result (λ r. r.scope ≡ scope) }
    // At the first input all inputs of the scope are left, in order.
    ensures all { IfOk result (λ r. inputs_left r.scope r.over r.input.items ≡ inputs_of scope) }
{
    let mut input = vec![in alloc; scope.low; scope.count as usize]?;
    let more = begin(input.as_mut_slice(), scope);
    Ok(Inputs {
        scope,
        input,
        over: !more,
    })
}

/// Before the input of this place, counted from 0: those from it on are left, and none where there are no more than `place`. It steps past
/// those before.
#[tactic(auto, using(crate::proofs::Placed::nothing_behind))]
pub(crate) fn input_at(alloc: Global, scope: Scope, place: u64) -> Result<Inputs, AllocError>
    ensures scope { IfOk result (λ r. r.scope ≡ scope) }
    ensures left { IfOk result (λ r. inputs_left r.scope r.over r.input.items ≡ drop place (inputs_of scope)) }
{
    let mut inputs = first_input(alloc, scope)?;
    for passed in 0..place {
        if inputs.is_over() {
            return Ok(inputs);
        }
        inputs.advance();
    }
    Ok(inputs)
}

impl Inputs {
    /// Whether one is past the last input: then none is left.
    pub fn is_over(&self) -> bool
        ensures { result ≡ self.now.over }
    {
        self.over
    }

    /// The input that one stands at, which is the first that is left.
    pub fn values(&self) -> &[i64]
        requires here { self.now.over ≡ false }
        ensures values { result.now ≡ self.now.input.items }
        ensures first { slice_get (inputs_left self.now.scope self.now.over self.now.input.items) 0 ≡ Some result.now }
    {
        self.input.as_slice()
    }

    /// Goes on to the next input, without memory of its own: it leaves those behind the one at which one stood.
    pub fn advance(&mut self)
        requires here { self.old.over ≡ false }
        ensures same { self.new.scope ≡ self.old.scope }
        // Behind the input at which one stands just the others that were left are left, in order.
        ensures left { inputs_left self.old.scope self.old.over self.old.input.items
            ≡ self.old.input.items ∷ inputs_left self.old.scope self.new.over self.new.input.items }
    {
        let more = go_on(self.input.as_mut_slice(), self.scope);
        self.over = !more;
    }
}
