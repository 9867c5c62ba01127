//! What is known where a value is set outside pardo.

ghost use Rattle.std.specs.Prelude.{◌≡◌, ℕ, List, ℤ, length, slice_set};
ghost use Rattle.intervals.specs.Intervals.{IsIn};
ghost use Rattle.pram_meaning.specs.Attempt.{Effect as Given};
ghost use Rattle.pram_meaning.specs.Store.{State, with_uniform};
ghost use Rattle.pram_meaning.specs.Together.{after_write};
ghost use Rattle.all_inputs.specs.Overall.{Cover};
ghost use Rattle.abstract_runs.specs.Covers.{IsReached};
ghost use Rattle.abstract_runs.specs.Effects.{IsGiven};
ghost use Rattle.abstract_runs.specs.Following.{Follows};
ghost use Rattle.abstract_runs.specs.Standing.{IsKnownAs, StandsFor};

use crate::effect::Effect;
use crate::outlook::interval_at;
use crate::reach::Reach;
use crate::standing::Standing;
use intervals::Interval;
use pram_meaning::numbers::Numbers;

/// The value at a place becomes one of the interval, if there is such a place.
pub(crate) fn set_interval(items: &mut Vec<Interval>, place: usize, value: Interval)
    // Whatever value of the interval is set there, the values lie in these.
    ensures covers { (zs : List ℤ) (v : ℤ) → Cover items.old.items zs → IsIn v value → Cover items.new.items (slice_set zs place v) }
    // There are as many as before.
    ensures length { length items.new.items ≡ length items.old.items }
{
    if place < items.len() {
        items[place] = value;
    }
}

/// The value at a place stays, or becomes one of the interval.
pub(crate) fn join_interval(items: &mut Vec<Interval>, place: usize, value: Interval)
    // Whether or not a value of the interval is set there, the values lie in these.
    ensures set { (zs : List ℤ) (v : ℤ) → Cover items.old.items zs → IsIn v value → Cover items.new.items (slice_set zs place v) }
    ensures stays { (zs : List ℤ) → Cover items.old.items zs → Cover items.new.items zs }
    // There are as many as before.
    ensures length { length items.new.items ≡ length items.old.items }
{
    let joined = interval_at(items, place).join(value);
    set_interval(items, place, joined);
}

// One of the cells of a reach becomes a value of the interval.
fn write_one(cells: &mut Vec<Interval>, reach: Reach, value: Interval)
    ensures covers { (zs : List ℤ) (c : ℕ) (v : ℤ) → Cover cells.old.items zs → IsReached c reach → IsIn v value →
        Cover cells.new.items (slice_set zs c v) }
    ensures length { length cells.new.items ≡ length cells.old.items }
{
    if reach.least == reach.most {
        set_interval(cells, reach.least as usize, value);
        return;
    }
    for c in reach.least as usize..reach.most as usize + 1 {
        join_interval(cells, c, value);
    }
}

/// What is known behind an assignment to a cell that gives this.
pub(crate) fn store_cell(known: &mut Standing, effect: Effect)
    // Each state behind such a write is one for which it stands.
    ensures stands { (m : State) (g : Given) → StandsFor known.old m → IsGiven effect g →
        StandsFor known.new (after_write g.cell g.value m) }
    // As many statements have run, and there are as many values.
    ensures follows { Follows known.old known.new }
{
    if let Some(reach) = effect.reach {
        write_one(&mut known.cells, reach, effect.value);
    }
}

/// A uniform variable becomes a number of the interval, which is its origin from then on.
pub(crate) fn set_uniform(known: &mut Standing, x: usize, value: Interval)
    // Whatever number of the interval it becomes, the state is one that is known.
    ensures known { (m : State) (v : ℤ) → IsKnownAs known.old m → IsIn v value → IsKnownAs known.new (with_uniform x v m) }
    // As many statements have run, and there are as many values.
    ensures follows { Follows known.old known.new }
    ensures least { known.new.least ≡ known.old.least }
{
    set_interval(&mut known.uniforms, x, value);
    set_interval(&mut known.origins, x, value);
}

/// The variable of a `for` becomes the next of its numbers.
pub(crate) fn set_variable(known: &mut Standing, variable: usize, numbers: &Numbers)
    // Each state in which it is set so is one that is known.
    ensures known { (m : State) → IsKnownAs known.old m → IsKnownAs known.new (with_uniform variable numbers.now.next m) }
    // As many statements have run, and there are as many values.
    ensures follows { Follows known.old known.new }
    ensures least { known.new.least ≡ known.old.least }
{
    set_uniform(known, variable, Interval::point(numbers.next));
}
