//! What there is to say of a name that is wrong, and of a token with which no program goes on.

ghost use Rattle.std.specs.Prelude.{◌≡◌, ◌≤◌, IfOk, length, map, take};
ghost use Rattle.pram_tokens.specs.Scanning.{cut_of, longest};
ghost use Rattle.help.specs.Choices.{AreChoicesBehind};
ghost use Rattle.std.specs.Option.{option_map};
ghost use Rattle.help.specs.InScope.{known_is};
ghost use Rattle.help.specs.Nearness as near;
ghost use Rattle.diagnoses.specs.Fitting as fit;
ghost use Rattle.pram_names.specs.declared.fault.Spot.TheVariants.{Offset};
ghost use Rattle.diagnoses.specs.Places.{token_at as token_of};
ghost use Rattle.diagnoses.specs.Remarks as spec;

use crate::fitting::{Role, fitting_names, is_inside, role_at};
use crate::places::{front, token_at};
use help::{Choice, Hint, Known, Sort, bound_in, choices_behind, find, hint_at, names_at, nearest};
use pram_check::{Breach, Cause, Spot};
use pram_parser::parse;
use pram_tokens::{LONGEST, LexError};
use pram_trees::{TextFault, Tree};
use std::alloc::{AllocError, Global};

/// What there is to say of a name that is wrong, or of a token with which no program goes on.
#[derive(Drop)]
pub(crate) enum Remark {
    /// Nothing: the text says nothing of it.
    Nothing,
    /// This name in scope was meant.
    Nearest(Vec<u8>),
    /// As what the name is declared, and on which line.
    Declared(Sort, u32),
    /// As what the name is declared, on which line, and the role that a name of that sort can't have where it stands.
    Misplaced(Sort, u32, Role),
    /// As what the name is declared in a pardo, and on which line, but not where it stands.
    Elsewhere(Sort, u32),
    /// No name is near: the role of the one that isn't declared, and whether it stands inside pardo.
    Undeclared(Role, bool),
    /// These kinds of tokens could stand there, and what else there is to say of the place.
    Expected(Vec<Choice>, Hint),
}

// The name that was meant, if there is one, and else where the name stands that isn't declared.
fn meant(
    alloc: Global,
    role: Role,
    inside: bool,
    found: Option<Known<'_>>,
) -> Result<Remark, AllocError>
    ensures { IfOk result (λ r. spec.remark_is r ≡ spec.meant role inside (option_map known_is found.entry)) }
{
    match found {
        None => Ok(Remark::Undeclared(role, inside)),
        Some(k) => Ok(Remark::Nearest(Vec::from_slice(alloc, k.name)?)),
    }
}

// As what and where the name is declared.
fn declared(found: Option<Known<'_>>) -> Remark
    ensures { spec.remark_is result ≡ spec.declared (option_map known_is found.entry) }
{
    match found {
        None => Remark::Nothing,
        Some(k) => Remark::Declared(k.sort, k.line),
    }
}

// That, and the role in which it stands there.
fn misplaced(
    alloc: Global,
    text: &[u8],
    at: u32,
    found: Option<Known<'_>>,
) -> Result<Remark, AllocError>
    requires fits { length text.now ≤ longest }
    ensures { IfOk result (λ r. spec.remark_is r
        ≡ spec.misplaced (fit.role_at (cut_of text.now) at) (option_map known_is found.entry)) }
{
    match found {
        None => Ok(Remark::Nothing),
        Some(k) => {
            let role = role_at(alloc, text, at)?;
            Ok(Remark::Misplaced(k.sort, k.line, role))
        }
    }
}

// What there is to say of a name that isn't in scope: the pardo in whose body it holds, or else which name was meant.
fn unknown(
    alloc: Global,
    text: &[u8],
    at: u32,
    bound: Option<Known<'_>>,
    names: &[Known<'_>],
) -> Result<Remark, AllocError>
    requires fits { length text.now ≤ longest }
    ensures { IfOk result (λ r. spec.remark_is r
        ≡ spec.unknown (fit.role_at (cut_of text.now) at) (fit.is_inside (map known_is names.now)) (option_map known_is bound.entry)
        (near.nearest (fit.fitting (cut_of text.now) at (map known_is names.now)) (token_of text.now at))) }
{
    match bound {
        Some(k) => Ok(Remark::Elsewhere(k.sort, k.line)),
        None => {
            let role = role_at(alloc, text, at)?;
            let fit = fitting_names(alloc, text, at, names)?;
            let near = nearest(alloc, &fit, token_at(text, at as usize))?;
            meant(alloc, role, is_inside(names), near)
        }
    }
}

// What there is to say of the word at a place by the names in scope.
fn remark_at(
    alloc: Global,
    text: &[u8],
    tree: &Tree,
    at: u32,
    cause: Cause,
) -> Result<Remark, AllocError>
    requires fits { length text.now ≤ longest }
    ensures { IfOk result (λ r. spec.remark_is r ≡ spec.remark_at text.now tree.now (Offset at) cause) }
{
    let names = names_at(alloc, tree, at)?;
    let word = token_at(text, at as usize);
    match cause {
        Cause::UnknownName => unknown(alloc, text, at, bound_in(tree, word), &names),
        Cause::DoubleName => Ok(declared(find(&names, word))),
        Cause::WrongKind => misplaced(alloc, text, at, find(&names, word)),
        Cause::AssignedLoopVariable => Ok(declared(find(&names, word))),
        Cause::Limit(_) => Ok(Remark::Nothing),
    }
}

// What there is to say of the first thing that is wrong with a program, by its tree.
fn remark_in(alloc: Global, text: &[u8], tree: &Tree, breach: Breach) -> Result<Remark, AllocError>
    requires fits { length text.now ≤ longest }
    ensures { IfOk result (λ r. spec.remark_is r ≡ spec.remark_of text.now tree.now breach) }
{
    match breach.spot {
        Spot::TextEnd => Ok(Remark::Nothing),
        Spot::Offset(at) => remark_at(alloc, text, tree, at, breach.cause),
    }
}

/// What there is to say of the first thing that is wrong with a program, by its text. The error is that memory was refused.
pub(crate) fn remark_of(alloc: Global, text: &[u8], breach: Breach) -> Result<Remark, AllocError>
    ensures { IfOk result (λ r. spec.IsRemark text.now breach (spec.remark_is r)) }
{
    match parse(alloc, text) {
        Ok(tree) => remark_in(alloc, text, &tree, breach),
        Err(TextFault::NotAscii(_)) => Ok(Remark::Nothing),
        Err(TextFault::TextTooLong) => Ok(Remark::Nothing),
        Err(TextFault::BadToken(_)) => Ok(Remark::Nothing),
        Err(TextFault::Syntax(_)) => Ok(Remark::Nothing),
        Err(TextFault::TooDeep(_)) => Ok(Remark::Nothing),
        Err(TextFault::OutOfMemory) => Err(AllocError),
    }
}

// What else there is to say of a place where these kinds of tokens could stand.
fn hinted(alloc: Global, text: &[u8], at: u32, found: Vec<Choice>) -> Result<Remark, AllocError>
    requires fits { length text.now ≤ longest }
    requires choices { AreChoicesBehind (take at text.now) found.items }
    ensures { IfOk result (λ r. spec.IsExpectation text.now at (spec.remark_is r)) }
{
    let hint = hint_at(alloc, text, at, &found)?;
    Ok(Remark::Expected(found, hint))
}

// The same of a text that isn't too long.
fn expected_in(alloc: Global, text: &[u8], at: u32) -> Result<Remark, AllocError>
    requires fits { length text.now ≤ longest }
    ensures { IfOk result (λ r. spec.IsExpectation text.now at (spec.remark_is r)) }
{
    match choices_behind(alloc, front(text, at as usize)) {
        Ok(found) => hinted(alloc, text, at, found),
        Err(LexError::BadToken(_)) => Ok(Remark::Nothing),
        Err(LexError::OutOfMemory) => Err(AllocError),
    }
}

/// Which kinds of tokens could stand at a place, behind what stands before it, and what else there is to say of it. The error is that
/// memory was refused.
pub(crate) fn expected_at(alloc: Global, text: &[u8], at: u32) -> Result<Remark, AllocError>
    ensures { IfOk result (λ r. spec.IsExpectation text.now at (spec.remark_is r)) }
{
    if LONGEST < text.len() {
        Ok(Remark::Nothing)
    } else {
        expected_in(alloc, text, at)
    }
}
