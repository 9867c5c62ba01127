//! Copies and joins of what is known of the processors of a pardo.

ghost use Rattle.std.specs.Prelude.{◌≡◌, ◌↔◌, List, true, IfOk};
ghost use Rattle.pram_meaning.specs.Store.{Member as AnyMember};
ghost use Rattle.abstract_runs.specs.Likeness.{AreLike, IsLike};
ghost use Rattle.abstract_runs.specs.Standing.{AreMembersOf, IsMemberOf};

use crate::covers::{grow_all, is_within_all};
use crate::growth::Growth;
use crate::standing::Member;
use std::alloc::{AllocError, Global};

impl Member {
    // The same once more.
    fn copied(&self, alloc: Global) -> Result<Member, AllocError>
        ensures known { IfOk result (λ one. (g : AnyMember) → IsMemberOf g self.now ↔ IsMemberOf g one) }
        ensures like { IfOk result (λ one. IsLike self.now one) }
    {
        let locals = Vec::from_slice(alloc, &self.locals)?;
        Ok(Member {
            index: self.index,
            locals,
        })
    }

    // What is known where a run came this way or the other.
    fn grow(&mut self, other: &Member, growth: Growth)
        requires { IsLike self.old other.now }
        ensures left { (g : AnyMember) → IsMemberOf g self.old → IsMemberOf g self.new }
        ensures right { (g : AnyMember) → IsMemberOf g other.now → IsMemberOf g self.new }
        ensures like { IsLike self.old self.new }
    {
        grow_all(&mut self.locals, &other.locals, growth);
    }

    // Whether the other stands for whatever this stands for.
    fn is_within(&self, other: &Member) -> bool
        ensures { result ≡ true → (g : AnyMember) → IsMemberOf g self.now → IsMemberOf g other.now }
    {
        self.index == other.index && is_within_all(&self.locals, &other.locals)
    }
}

/// The same team once more.
pub fn copied_team(alloc: Global, team: &[Member]) -> Result<Vec<Member>, AllocError>
    // The copy stands for exactly what the team stands for.
    ensures known { IfOk result (λ copy. (gs : List AnyMember) → AreMembersOf gs team.now ↔ AreMembersOf gs copy.items) }
    // It has the same processors.
    ensures like { IfOk result (λ copy. AreLike team.now copy.items) }
{
    let mut copy = Vec::with_capacity(alloc, team.len())?;
    for k in 0..team.len() {
        let one = team[k].copied(alloc)?;
        copy.push(one)?;
    }
    Ok(copy)
}

// What is known of the processors where a run came this way or the other.
fn grow_team(team: &mut Vec<Member>, other: &[Member], growth: Growth)
    requires { AreLike team.old.items other.now }
    ensures left { (gs : List AnyMember) → AreMembersOf gs team.old.items → AreMembersOf gs team.new.items }
    ensures right { (gs : List AnyMember) → AreMembersOf gs other.now → AreMembersOf gs team.new.items }
    ensures like { AreLike team.old.items team.new.items }
{
    for k in 0..team.len() {
        team[k].grow(&other[k], growth);
    }
}

/// What is known of the processors where a run came this way or the other.
pub fn join_team(team: &mut Vec<Member>, other: &[Member])
    requires { AreLike team.old.items other.now }
    // What was known of some processors is known still.
    ensures left { (gs : List AnyMember) → AreMembersOf gs team.old.items → AreMembersOf gs team.new.items }
    // What the other knows of some processors is known.
    ensures right { (gs : List AnyMember) → AreMembersOf gs other.now → AreMembersOf gs team.new.items }
    // They are the same processors.
    ensures like { AreLike team.old.items team.new.items }
{
    grow_team(team, other, Growth::Least);
}

/// What is known of the processors where a run came this way or the other, with intervals that grow to marks.
pub fn widen_team(team: &mut Vec<Member>, other: &[Member], marks: &[i64])
    requires { AreLike team.old.items other.now }
    // What was known of some processors is known still.
    ensures left { (gs : List AnyMember) → AreMembersOf gs team.old.items → AreMembersOf gs team.new.items }
    // What the other knows of some processors is known.
    ensures right { (gs : List AnyMember) → AreMembersOf gs other.now → AreMembersOf gs team.new.items }
    // They are the same processors.
    ensures like { AreLike team.old.items team.new.items }
{
    grow_team(team, other, Growth::ToMarks(marks));
}

/// What is known of the processors where a run came this way or the other, with all numbers where they differ.
pub fn widen_team_to_all(team: &mut Vec<Member>, other: &[Member])
    requires { AreLike team.old.items other.now }
    // What was known of some processors is known still.
    ensures left { (gs : List AnyMember) → AreMembersOf gs team.old.items → AreMembersOf gs team.new.items }
    // What the other knows of some processors is known.
    ensures right { (gs : List AnyMember) → AreMembersOf gs other.now → AreMembersOf gs team.new.items }
    // They are the same processors.
    ensures like { AreLike team.old.items team.new.items }
{
    grow_team(team, other, Growth::ToAll);
}

/// Whether the other stands for whatever the team stands for.
pub fn is_team_within(team: &[Member], other: &[Member]) -> bool
    // Where that is so, what this knows of some processors the other knows.
    ensures { result ≡ true → (gs : List AnyMember) → AreMembersOf gs team.now → AreMembersOf gs other.now }
{
    if team.len() != other.len() {
        return false;
    }
    for k in 0..team.len() {
        if !team[k].is_within(&other[k]) {
            return false;
        }
    }
    true
}
