//! What a statement of a set changes of the locals of its processors.

ghost use Rattle.std.specs.Prelude.{◌≡◌, ◌++◌, IfOk, OnOk, map};
ghost use Rattle.std.specs.List.{flat_map};
ghost use Rattle.pram_meaning.specs.Judging.{part_is};
ghost use Rattle.pram_meaning.specs.Listening.{step_action_is};
ghost use Rattle.pram_meaning.specs.Sets.{member_is};
ghost use Rattle.journal.specs.Changes.{change_at};
ghost use Rattle.journal.specs.Locals as spec;

use crate::{Change, LocalChange};
use pram_check::StepTarget;
use pram_meaning::action::StepAction;
use pram_meaning::part::Part;
use pram_meaning::team::{Member, value_in};
use pram_meaning::view::number_at;
use std::alloc::{AllocError, Global};

// The local of the member of a number.
fn local_of(team: &[Member], member: usize, local: usize) -> i64
    ensures { result ≡ spec.local_of (map member_is team.now) member local }
{
    match team.get(member) {
        Some(member) => number_at(&member.locals, local),
        None => 0,
    }
}

// The change of a local whose value differs, put behind the others.
fn add_local(
    changes: &mut Vec<LocalChange>,
    processor: i64,
    local: usize,
    before: i64,
    after: i64,
) -> Result<(), AllocError>
    ensures { OnOk result (changes.new.items ≡ changes.old.items ++ map (spec.own processor) (change_at local before after)) }
{
    if before != after {
        let change = Change {
            cell: local,
            before,
            after,
        };
        changes.push(LocalChange { processor, change })?;
    }
    Ok(())
}

// What a processor's part changes of its local, put behind the others.
fn add_part(
    changes: &mut Vec<LocalChange>,
    team: &[Member],
    local: usize,
    x: &Part,
) -> Result<(), AllocError>
    ensures { OnOk result (changes.new.items ≡ changes.old.items ++ spec.set_by local (map member_is team.now) (part_is x.now)) }
{
    let before = local_of(team, x.member as usize, local);
    add_local(changes, x.processor, local, before, value_in(x))
}

// A local of each processor gets its value.
fn locals_set(
    alloc: Global,
    team: &[Member],
    local: usize,
    parts: &[Part],
) -> Result<Vec<LocalChange>, AllocError>
    ensures { IfOk result (λ ds. ds.items ≡ flat_map (spec.set_by local (map member_is team.now)) (map part_is parts.now)) }
{
    let mut changes = Vec::new(alloc);
    for x in parts {
        add_part(&mut changes, team, local, x)?;
    }
    Ok(changes)
}

/// The locals that a statement of a set changes, with their processors, in the order of the set.
pub fn locals_changed(
    alloc: Global,
    team: &Vec<Member>,
    action: &StepAction,
    parts: &[Part],
) -> Result<Vec<LocalChange>, AllocError>
    ensures { IfOk result (λ ds. ds.items ≡ spec.locals_changed (step_action_is action.now) (map part_is parts.now)
        (map member_is team.now.items)) }
{
    match action {
        StepAction::Assigns { target, .. } => match target {
            StepTarget::Local(local) => locals_set(alloc, team, *local, parts),
            StepTarget::Cell(_) | StepTarget::Element(_, _) => Ok(Vec::new(alloc)),
        },
        StepAction::Turns { .. } | StepAction::Chooses { .. } => Ok(Vec::new(alloc)),
    }
}
