//! How what is known of a loop comes to rest.

ghost use Rattle.std.specs.Prelude.{◌≡◌, ◌≤◌, List, true};
ghost use Rattle.pram_meaning.specs.Store.{State, Member as AnyMember};
ghost use Rattle.abstract_runs.specs.Following.{Follows, IsSameSize};
ghost use Rattle.abstract_runs.specs.Standing.{AreMembersOf, IsKnownAs, StandsWith};
ghost use Rattle.abstract_runs.specs.Likeness.{AreLike};
ghost use Rattle.abstract_runs.specs.declared.standing.Standing.{Standing as Known};

use crate::holding::hold_back_all;
use crate::standing::{Member, Standing};
use crate::teams::{is_team_within, widen_team, widen_team_to_all};

/// How often a loop is gone through at most until it comes to rest.
pub(crate) const MOST_ROUNDS: u32 = 100;

// What is known at a loop's test grows behind one turn more: to marks, and in late rounds to all numbers.
fn grow_at(known: &mut Standing, turned: &Standing, marks: &[i64], bound: u32, round: u32)
    requires { IsSameSize known.old turned.now }
    ensures left { (m : State) → IsKnownAs known.old m → IsKnownAs known.new m }
    ensures most { known.old.most ≤ known.new.most }
    ensures follows { (before : Known) → Follows before known.old → Follows before turned.now → Follows before known.new }
{
    if round < MOST_ROUNDS / 2 {
        known.widen(turned, marks, bound);
    } else {
        known.widen_to_all(turned, bound);
    }
}

/// What is known at a loop's test, behind one turn more: it grows to marks, and in late rounds to all numbers, or as far as uniform
/// variables may be from their origins.
pub(crate) fn widen_at(
    known: &mut Standing,
    turned: &Standing,
    marks: &[i64],
    bound: u32,
    round: u32,
)
    requires { IsSameSize known.old turned.now }
    // What it stood for it stands for still.
    ensures left { (m : State) → IsKnownAs known.old m → IsKnownAs known.new m }
    // As many statements may have run.
    ensures most { known.old.most ≤ known.new.most }
    // Where both come later than something, so does the result.
    ensures follows { (before : Known) → Follows before known.old → Follows before turned.now → Follows before known.new }
{
    grow_at(known, turned, marks, bound, round);
    hold_back_all(known);
}

/// The same of the processors.
pub(crate) fn widen_team_at(team: &mut Vec<Member>, turned: &[Member], marks: &[i64], round: u32)
    requires { AreLike team.old.items turned.now }
    // What they stood for they stand for still.
    ensures left { (gs : List AnyMember) → AreMembersOf gs team.old.items → AreMembersOf gs team.new.items }
    // They are the same processors.
    ensures like { AreLike team.old.items team.new.items }
{
    if round < MOST_ROUNDS / 2 {
        widen_team(team, turned, marks);
    } else {
        widen_team_to_all(team, turned);
    }
}

/// Whether a turn leads back to what is known.
pub(crate) fn is_all_within(
    turned: &Standing,
    known: &Standing,
    turned_team: &[Member],
    team: &[Member],
) -> bool
    // Where it does, each state behind the turn is one of those before it.
    ensures { result ≡ true → (m : State) → StandsWith turned.now turned_team.now m → StandsWith known.now team.now m }
{
    turned.is_within(known) && is_team_within(turned_team, team)
}
