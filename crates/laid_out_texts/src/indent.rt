//! What stands before a piece.

ghost use Rattle.std.specs.Prelude.{◌≡◌, ◌++◌, true, false, OnOk};
ghost use Rattle.laid_out_texts.specs.Layout as spec;

use crate::piece::Place;
use crate::role::{Role, dedents};
use crate::state::{Before, State, is_wide};
use std::alloc::AllocError;

fn is_beside(place: Place) -> bool
    ensures { result ≡ spec.is_beside place }
{
    match place {
        Place::Beside => true,
        _ => false,
    }
}

// Whether a piece begins a line.
fn breaks(state: State, place: Place, role: Role) -> bool
    ensures { result ≡ spec.breaks state place role }
{
    match role {
        Role::Comment => !is_beside(place),
        _ => state.due || (dedents(role) && is_wide(state)) || (!state.inside && !is_beside(place)),
    }
}

// Whether no space is between two pieces of a line.
fn is_tight(before: Before, role: Role) -> bool
    ensures { result ≡ spec.is_tight before role }
{
    match role {
        Role::Comment => false,
        Role::Ends | Role::Joins | Role::ClosesParen => true,
        _ => match before {
            Before::Tight => true,
            _ => false,
        },
    }
}

fn level_at(state: State, role: Role) -> u32
    ensures { result ≡ spec.level_at state role }
{
    if dedents(role) {
        state.level.saturating_sub(1)
    } else {
        state.level
    }
}

// One line's end, or an empty line more.
fn line_ends(place: Place) -> &'static [u8]
    ensures { result.now ≡ spec.line_ends place }
{
    match place {
        Place::Apart => b"\n\n",
        _ => b"\n",
    }
}

fn hang(inside: bool) -> &'static [u8]
    ensures { result.now ≡ spec.hang inside }
{
    if inside { b"  " } else { b"" }
}

// Two spaces a level.
fn add_indent(to: &mut Vec<u8>, level: u32) -> Result<(), AllocError>
    ensures { OnOk result (to.new.items ≡ to.old.items ++ spec.indent level) }
{
    for _ in 0..level {
        to.extend_from_slice(b"  ")?;
    }
    Ok(())
}

// A new line.
fn add_line(to: &mut Vec<u8>, state: State, place: Place, role: Role) -> Result<(), AllocError>
    ensures { OnOk result (to.new.items ≡ to.old.items ++ spec.gap_by true false state place role) }
{
    to.extend_from_slice(line_ends(place))?;
    add_indent(to, level_at(state, role))?;
    to.extend_from_slice(hang(state.inside))?;
    Ok(())
}

// What stands before a piece that isn't the first one.
fn add_gap_of(to: &mut Vec<u8>, state: State, place: Place, role: Role) -> Result<(), AllocError>
    ensures { OnOk result (to.new.items ≡ to.old.items ++ spec.gap_of state place role) }
{
    if breaks(state, place, role) {
        return add_line(to, state, place, role);
    }
    if !is_tight(state.before, role) {
        to.push(b' ')?;
    }
    Ok(())
}

/// Puts behind a text what stands before a piece.
pub(crate) fn add_gap(
    to: &mut Vec<u8>,
    state: State,
    place: Place,
    role: Role,
) -> Result<(), AllocError>
    ensures { OnOk result (to.new.items ≡ to.old.items ++ spec.gap state.before state place role) }
{
    match state.before {
        Before::Start => Ok(()),
        _ => add_gap_of(to, state, place, role),
    }
}

/// Puts behind a text what stands behind its last piece.
pub(crate) fn add_ending(to: &mut Vec<u8>, before: Before) -> Result<(), AllocError>
    ensures { OnOk result (to.new.items ≡ to.old.items ++ spec.ending before) }
{
    match before {
        Before::Start => Ok(()),
        _ => {
            to.push(b'\n')?;
            Ok(())
        }
    }
}
