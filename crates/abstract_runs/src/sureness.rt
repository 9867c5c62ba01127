//! Whether a set surely has a member.

ghost use Rattle.std.specs.Prelude.{◌≡◌, ◌≢◌, ℕ, List, [], true};
ghost use Rattle.abstract_runs.specs.Rows.{AreActive};

use crate::active::Active;

/// Whether one of these is surely active.
pub(crate) fn has_sure(active: &[Active]) -> bool
    // Where one is, each of the sets has a member.
    ensures { result ≡ true → (vs : List ℕ) → AreActive active.now vs → vs ≢ [] }
{
    for k in 0..active.len() {
        if active[k].is_sure {
            return true;
        }
    }
    false
}
