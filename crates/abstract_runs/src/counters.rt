//! What is known behind an assignment outside pardo, where uniform variables count.

ghost use Rattle.std.specs.Prelude.{◌≡◌, ℤ, pos, slice_index_or};
ghost use Rattle.intervals.specs.Intervals.{IsIn};
ghost use Rattle.pram_check.specs.Checked.{Checked};
ghost use Rattle.pram_meaning.specs.Attempt.{Effect as Given, Gives, Trail, attempt_assign};
ghost use Rattle.pram_meaning.specs.Store.{State, seen, with_uniform};
ghost use Rattle.pram_meaning.specs.Together.{assigned};
ghost use Rattle.abstract_runs.specs.Effects.{IsGiven};
ghost use Rattle.abstract_runs.specs.Following.{Follows};
ghost use Rattle.abstract_runs.specs.Near.{IsNear};
ghost use Rattle.abstract_runs.specs.Standing.{HasBegun, StandsFor};
ghost use Rattle.abstract_runs.specs.Tests.{IsValueOf};

use crate::effect::Effect;
use crate::holding::hold_back;
use crate::standing::Standing;
use crate::steps::is_step_of;
use crate::storing::{set_interval, set_uniform, store_cell};
use intervals::Interval;
use pram_check::{Expression, Target};

// A variable becomes a number of the interval that is at most one away from what it was: its origin stays.
fn step_uniform(known: &mut Standing, x: usize, value: Interval)
    ensures stands { (m : State) (v : ℤ) → StandsFor known.old m → HasBegun known.old m →
        IsNear 1 (slice_index_or m.uniforms x (pos 0)) v → IsIn v value → StandsFor known.new (with_uniform x v m) }
    ensures follows { Follows known.old known.new }
{
    set_interval(&mut known.uniforms, x, value);
}

// A variable becomes what the expression gives, a number of the interval: its origin stays where that is a step of it.
fn count_uniform(known: &mut Standing, x: usize, e: &Expression, value: Interval)
    ensures stands { (p : Checked) (m : State) (v : ℤ) → StandsFor known.old m → HasBegun known.old m → IsValueOf (seen p m) e.now v →
        IsIn v value → StandsFor known.new (with_uniform x v m) }
    ensures follows { Follows known.old known.new }
{
    if is_step_of(x, e) {
        step_uniform(known, x, value);
    } else {
        set_uniform(known, x, value);
    }
}

// The same, held back to what is near to its origin.
fn assign_uniform(known: &mut Standing, x: usize, e: &Expression, value: Interval)
    ensures stands { (p : Checked) (m : State) (v : ℤ) → StandsFor known.old m → HasBegun known.old m → IsValueOf (seen p m) e.now v →
        IsIn v value → StandsFor known.new (with_uniform x v m) }
    ensures follows { Follows known.old known.new }
{
    count_uniform(known, x, e, value);
    hold_back(known, x);
}

/// What is known behind an assignment that has begun and gives this.
pub(crate) fn store(known: &mut Standing, target: &Target, e: &Expression, effect: Effect)
    // Each state behind such an assignment is one for which it stands.
    ensures stands { (p : Checked) (m : State) (t : Trail) (g : Given) → StandsFor known.old m → HasBegun known.old m →
        attempt_assign (seen p m) target.now e.now ≡ Gives t g → IsGiven effect g → StandsFor known.new (assigned target.now g m) }
    // As many statements have run, and there are as many values.
    ensures follows { Follows known.old known.new }
{
    match target {
        Target::Uniform(x) => assign_uniform(known, *x, e, effect.value),
        Target::Cell(_) | Target::Element(_, _) => store_cell(known, effect),
    }
}
