//! What is known where two ways come together.

ghost use Rattle.std.specs.Prelude.{◌≡◌, true};
ghost use Rattle.pram_meaning.specs.Store.{State};
ghost use Rattle.abstract_runs.specs.Following.{Follows, IsSameSize};
ghost use Rattle.abstract_runs.specs.Standing.{StandsFor};

use crate::standing::Standing;

/// What is known behind two ways, each of which runs may have gone or not; `false` where none did.
pub(crate) fn join_ways(known: &mut Standing, on: bool, other: Standing, off: bool) -> bool
    requires size { IsSameSize known.old other }
    // A run that went the first way is known.
    ensures left { on ≡ true → (m : State) → StandsFor known.old m → (result ≡ true) × StandsFor known.new m }
    // A run that went the other way is known.
    ensures right { off ≡ true → (m : State) → StandsFor other m → (result ≡ true) × StandsFor known.new m }
    // Where both come later than something, so does what is known.
    ensures follows { (before : Standing) → Follows before known.old → Follows before other → Follows before known.new }
{
    if !off {
        return on;
    }
    if on {
        known.join(&other);
    } else {
        *known = other;
    }
    true
}
