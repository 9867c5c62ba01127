//! Intervals of uniform variables, held back to what is near to their origins.

ghost use Rattle.std.specs.Prelude.{◌≡◌, ℤ, pos, ◌+ℤ◌, ◌≤ℤ◌};
ghost use Rattle.intervals.specs.Intervals.{IsIn};
ghost use Rattle.pram_meaning.specs.Store.{State};
ghost use Rattle.abstract_runs.specs.Following.{Follows};
ghost use Rattle.abstract_runs.specs.Near.{IsNear};
ghost use Rattle.abstract_runs.specs.Standing.{IsKnownAs};

use crate::outlook::interval_at;
use crate::standing::Standing;
use crate::storing::set_interval;
use intervals::Interval;

// A lower end, or what is so far below a number, if that is greater.
fn lower_end(end: i64, from: i64, far: u32) -> i64
    ensures { (z : ℤ) → end ≤ℤ z → from ≤ℤ (z +ℤ pos far) → result ≤ℤ z }
{
    end.max(from.saturating_sub(i64::from(far)))
}

// An upper end, or what is so far above a number, if that is less.
fn upper_end(end: i64, from: i64, far: u32) -> i64
    ensures { (z : ℤ) → z ≤ℤ end → z ≤ℤ (from +ℤ pos far) → z ≤ℤ result }
{
    end.min(from.saturating_add(i64::from(far)))
}

// What is left of an interval where each number is at most so far from one of the origin; all of it where nothing is left.
fn held_back(value: Interval, origin: Interval, far: u32) -> Interval
    ensures { (o z : ℤ) → IsIn o origin → IsNear far o z → IsIn z value → IsIn z result }
{
    let least = lower_end(value.least(), origin.least(), far);
    let greatest = upper_end(value.greatest(), origin.greatest(), far);
    match Interval::of(least, greatest) {
        Some(left) => left,
        None => value,
    }
}

/// The interval of a uniform variable is cut to the numbers that are as near to its origin as statements may have run.
pub(crate) fn hold_back(known: &mut Standing, x: usize)
    // What was known of a state is known still.
    ensures known { (m : State) → IsKnownAs known.old m → IsKnownAs known.new m }
    // As many statements have run, and there are as many values.
    ensures follows { Follows known.old known.new }
    ensures most { known.new.most ≡ known.old.most }
{
    let left = held_back(
        interval_at(&known.uniforms, x),
        interval_at(&known.origins, x),
        known.most,
    );
    set_interval(&mut known.uniforms, x, left);
}

/// The same of each uniform variable.
pub(crate) fn hold_back_all(known: &mut Standing)
    // What was known of a state is known still.
    ensures known { (m : State) → IsKnownAs known.old m → IsKnownAs known.new m }
    // As many statements have run, and there are as many values.
    ensures follows { Follows known.old known.new }
    ensures most { known.new.most ≡ known.old.most }
{
    for x in 0..known.uniforms.len() {
        hold_back(known, x);
    }
}
