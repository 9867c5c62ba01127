//! The law of this crate: of the numbers that a seed draws.

ghost use Rattle.std.specs.Prelude.{◌≡◌, ◌≤◌, ℕ, ℤ, take};
ghost use Rattle.scopes.specs.Drawn.{drawn};

/// Fewer numbers are the first of more, by one seed from one interval.
pub fn fewer_are_the_first_of_more()
    // Fewer numbers of a seed from an interval are the first of more.
    ensures { (low high : ℤ) (seed few more : ℕ) → few ≤ more → drawn low high seed few ≡ take few (drawn low high seed more) }
{}
