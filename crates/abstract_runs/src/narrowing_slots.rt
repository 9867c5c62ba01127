//! What is left of what is known where a comparison holds of a slot's value.

ghost use Rattle.std.specs.Prelude.{◌≡◌, ℤ, List, pos, length, true, slice_index_or};
ghost use Rattle.intervals.specs.Comparisons.{holds};
ghost use Rattle.intervals.specs.Intervals.{IsIn};
ghost use Rattle.pram_meaning.specs.Store.{State};
ghost use Rattle.all_inputs.specs.Overall.{Cover};
ghost use Rattle.abstract_runs.specs.Following.{Follows};
ghost use Rattle.abstract_runs.specs.Standing.{StandsFor};
ghost use Rattle.abstract_runs.specs.Tests.{value_at};

use crate::outlook::interval_at;
use crate::slot::Slot;
use crate::standing::Standing;
use crate::storing::set_interval;
use intervals::{Comparison, Interval, narrowed};

// What is left of the interval at a place where a comparison of its value with a number of the other holds; `false` where nothing is.
pub(crate) fn narrow_place(
    items: &mut Vec<Interval>,
    place: usize,
    comparison: Comparison,
    other: Interval,
) -> bool
    ensures kept { (zs : List ℤ) (y : ℤ) → Cover items.old.items zs → IsIn y other →
        holds comparison (slice_index_or zs place (pos 0)) y ≡ true → (result ≡ true) × Cover items.new.items zs }
    ensures length { length items.new.items ≡ length items.old.items }
{
    let Some(left) = narrowed(comparison, interval_at(items, place), other) else {
        return false;
    };
    set_interval(items, place, left);
    true
}

/// What is left where a comparison of a slot's value with a number of the interval holds; `false` where nothing is.
pub(crate) fn narrow_slot(
    known: &mut Standing,
    slot: Slot,
    comparison: Comparison,
    other: Interval,
) -> bool
    // Each state in which it holds is one for which what is left stands.
    ensures kept { (m : State) (y : ℤ) → StandsFor known.old m → IsIn y other →
        holds comparison (value_at slot m.uniforms m.cells) y ≡ true → (result ≡ true) × StandsFor known.new m }
    // As many statements have run, and there are as many values.
    ensures follows { Follows known.old known.new }
{
    match slot {
        Slot::Uniform(x) => narrow_place(&mut known.uniforms, x, comparison, other),
        Slot::Cell(c) => narrow_place(&mut known.cells, c as usize, comparison, other),
    }
}
