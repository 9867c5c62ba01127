//! What is known of the processors of a set, beside what is known of all.

ghost use Rattle.std.specs.Prelude.{◌≡◌, ℕ, List, IfSome};
ghost use Rattle.pram_check.specs.Checked.{Checked};
ghost use Rattle.pram_meaning.specs.Bounded.{Goes, perform_on};
ghost use Rattle.pram_meaning.specs.Store.{State};
ghost use Rattle.abstract_runs.specs.Inner.{AreKnownIn};

use crate::standing::Member;
use crate::staying::sets_local;
use pram_check::Step;

/// What is known of a set still behind a statement: no more than of all where it assigns to a local.
pub(crate) fn known_behind<'t>(inner: Option<&'t Vec<Member>>, s: &Step) -> Option<&'t Vec<Member>>
    // Where the statement goes on from a state in which that is known, what is known still is so of the state behind it.
    ensures { (p : Checked) (n : ℕ) (vs : List ℕ) (m z : State) → perform_on p n s.now vs m ≡ Goes tt z →
        IfSome inner.entry (λ t. AreKnownIn t.now.items vs m) → IfSome result (λ t. AreKnownIn t.now.items vs z) }
{
    if sets_local(s) {
        return None;
    }
    inner
}
