//! Lists of intervals: copies, joins, and whether each lies in another.

ghost use Rattle.std.specs.Prelude.{◌≡◌, List, ℤ, length, true};
ghost use Rattle.all_inputs.specs.Overall.{Cover};

use crate::growth::Growth;
use intervals::Interval;

// Each interval grows to hold the other at its place.
pub(crate) fn grow_all(items: &mut Vec<Interval>, others: &[Interval], growth: Growth)
    requires { length items.old.items ≡ length others.now }
    ensures left { (zs : List ℤ) → Cover items.old.items zs → Cover items.new.items zs }
    ensures right { (zs : List ℤ) → Cover others.now zs → Cover items.new.items zs }
    ensures length { length items.new.items ≡ length items.old.items }
{
    for k in 0..items.len() {
        items[k] = growth.grown(items[k], others[k]);
    }
}

/// Each interval becomes the least that holds it and the other at its place.
pub fn join_all(items: &mut Vec<Interval>, others: &[Interval])
    requires { length items.old.items ≡ length others.now }
    // Values that lay in the intervals lie in the joins.
    ensures left { (zs : List ℤ) → Cover items.old.items zs → Cover items.new.items zs }
    // Values that lie in the others lie in the joins.
    ensures right { (zs : List ℤ) → Cover others.now zs → Cover items.new.items zs }
    // There are as many as before.
    ensures length { length items.new.items ≡ length items.old.items }
{
    grow_all(items, others, Growth::Least);
}

/// Each interval grows to marks, so that it holds the other at its place.
pub fn widen_all(items: &mut Vec<Interval>, others: &[Interval], marks: &[i64])
    requires { length items.old.items ≡ length others.now }
    // Values that lay in the intervals lie in them still.
    ensures left { (zs : List ℤ) → Cover items.old.items zs → Cover items.new.items zs }
    // Values that lie in the others lie in them.
    ensures right { (zs : List ℤ) → Cover others.now zs → Cover items.new.items zs }
    // There are as many as before.
    ensures length { length items.new.items ≡ length items.old.items }
{
    grow_all(items, others, Growth::ToMarks(marks));
}

/// Whether each interval lies in the other at its place, and there are as many.
pub fn is_within_all(items: &[Interval], others: &[Interval]) -> bool
    // Where that is so, values that lie in the intervals lie in the others.
    ensures { result ≡ true → (zs : List ℤ) → Cover items.now zs → Cover others.now zs }
{
    if items.len() != others.len() {
        return false;
    }
    for k in 0..items.len() {
        if !items[k].is_within(others[k]) {
            return false;
        }
    }
    true
}
