//! What is before a piece.

ghost use Rattle.std.specs.Prelude.{◌≡◌, false};
ghost use Rattle.laid_out_texts.specs.Layout as spec;

use crate::role::Role;

/// What the piece before is to the next one in its line.
#[derive(Clone, Copy, Debug, PartialEq, Eq)]
pub enum Before {
    /// There is none.
    Start,
    /// No space follows it.
    Tight,
    /// An operand ends with it.
    Operand,
    /// Anything else.
    Other,
}

/// What is before a piece.
#[derive(Clone, Copy, Debug, PartialEq, Eq)]
pub struct State {
    /// The number of open blocks, up to 100.
    pub level: u32,
    /// How many of these go over several lines: the outer ones.
    pub wide: u32,
    /// Whether a statement or declaration has begun.
    pub inside: bool,
    /// Whether the next piece has to begin a line.
    pub due: bool,
    pub before: Before,
}

const DEEPEST: u32 = 100;

/// What is before the first piece.
pub(crate) fn start() -> State
    ensures { result ≡ spec.start }
{
    State {
        level: 0,
        wide: 0,
        inside: false,
        due: false,
        before: Before::Start,
    }
}

/// Whether the innermost block goes over several lines.
pub(crate) fn is_wide(state: State) -> bool
    ensures { result ≡ spec.is_wide state }
{
    state.wide == state.level
}

// One level more.
fn deeper(level: u32) -> u32
    ensures { result ≡ spec.deeper level }
{
    if level < DEEPEST { level + 1 } else { level }
}

fn before_next(before: Before, role: Role) -> Before
    ensures { result ≡ spec.before_next before role }
{
    match role {
        Role::OpensParen | Role::Joins => Before::Tight,
        Role::ClosesParen | Role::Operand => Before::Operand,
        Role::Minus => match before {
            Before::Operand => Before::Other,
            _ => Before::Tight,
        },
        _ => Before::Other,
    }
}

/// Behind a word that opens a block.
pub(crate) fn opened(state: State, spread: bool) -> State
    ensures { result ≡ spec.opened state spread }
{
    let level = deeper(state.level);
    State {
        level,
        wide: if spread { level } else { state.wide },
        inside: false,
        due: spread,
        before: Before::Other,
    }
}

fn closed(state: State) -> State
    ensures { result ≡ spec.closed state }
{
    let level = state.level.saturating_sub(1);
    State {
        level,
        wide: state.wide.min(level),
        inside: false,
        due: false,
        before: Before::Other,
    }
}

fn ended(state: State, due: bool) -> State
    ensures { result ≡ record state { inside = false; due = due; before = Before.Other } }
{
    State {
        level: state.level,
        wide: state.wide,
        inside: false,
        due,
        before: Before::Other,
    }
}

/// Behind a piece that opens no block.
pub(crate) fn behind(state: State, role: Role) -> State
    ensures { result ≡ spec.behind state role }
{
    match role {
        Role::Comment => State {
            level: state.level,
            wide: state.wide,
            inside: state.inside,
            due: true,
            before: Before::Other,
        },
        Role::Turns => ended(state, is_wide(state)),
        Role::Closes => closed(state),
        Role::Ends => ended(state, false),
        _ => State {
            level: state.level,
            wide: state.wide,
            inside: true,
            due: false,
            before: before_next(state.before, role),
        },
    }
}
