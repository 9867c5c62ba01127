//! The role of a name where it stands, and which of the names in scope may have it there.

ghost use Rattle.std.specs.Prelude.{◌≡◌, ◌≤◌, IfOk, length, map};
ghost use Rattle.std.specs.List.{filter, slice_get};
ghost use Rattle.pram_tokens.specs.Scanning.{cut, cut_of, longest};
ghost use Rattle.help.specs.InScope.{known_is};
ghost use Rattle.diagnoses.specs.Fitting as spec;

use crate::places::is_same;
use help::{Known, Sort, open_blocks, tokens_before};
use pram_tokens::{LexError, Mark, Opening, Token, tokenize};
use std::alloc::{AllocError, Global};

/// The role of a name where it stands.
#[derive(Clone, Copy, Debug, PartialEq, Eq)]
pub enum Role {
    /// A subscript stands behind it.
    Element,
    /// It is assigned.
    Target,
    /// It counts the turns of a `for`.
    Counter,
    /// It is read.
    Value,
}

// ---- what may stand there

// Whether a name of that sort may be assigned, inside pardo or outside, where it is or isn't the variable of a `for` around.
fn may_be_assigned(sort: Sort, inside: bool, counts: bool) -> bool
    ensures { result ≡ spec.may_be_assigned inside counts sort }
{
    match sort {
        Sort::Cell => true,
        Sort::Array => false,
        Sort::Variable => !inside && !counts,
        Sort::Index => false,
        Sort::Local => inside,
    }
}

fn is_array(sort: Sort) -> bool
    ensures { result ≡ spec.is_array sort }
{
    match sort {
        Sort::Array => true,
        _ => false,
    }
}

fn is_variable(sort: Sort) -> bool
    ensures { result ≡ spec.is_variable sort }
{
    match sort {
        Sort::Variable => true,
        _ => false,
    }
}

fn is_index(sort: Sort) -> bool
    ensures { result ≡ spec.is_index sort }
{
    match sort {
        Sort::Index => true,
        _ => false,
    }
}

// Whether a name of that sort may have that role.
fn may_stand(role: Role, inside: bool, counts: bool, sort: Sort) -> bool
    ensures { result ≡ spec.may_stand role inside counts sort }
{
    match role {
        Role::Element => is_array(sort),
        Role::Target => may_be_assigned(sort, inside, counts),
        Role::Counter => is_variable(sort) && !counts,
        Role::Value => !is_array(sort),
    }
}

// ---- tokens

fn is_bracket(token: &Token) -> bool
    ensures { result ≡ spec.is_bracket token.now }
{
    match token {
        Token::Mark(Mark::OpenBracket) => true,
        _ => false,
    }
}

fn is_becomes(token: &Token) -> bool
    ensures { result ≡ spec.is_becomes token.now }
{
    match token {
        Token::Mark(Mark::Becomes) => true,
        _ => false,
    }
}

fn is_for(token: &Token) -> bool
    ensures { result ≡ spec.is_for token.now }
{
    match token {
        Token::Opening(Opening::For, _) => true,
        _ => false,
    }
}

fn is_name(token: &Token, name: &[u8]) -> bool
    ensures { result ≡ spec.is_name name.now token.now }
{
    match token {
        Token::Name(x) => is_same(x.text.as_slice(), name),
        _ => false,
    }
}

fn is_bracket_at(tokens: &[Token], i: usize) -> bool
    ensures { result ≡ spec.passes spec.is_bracket (slice_get tokens.now i) }
{
    match tokens.get(i) {
        Some(token) => is_bracket(token),
        None => false,
    }
}

fn is_becomes_at(tokens: &[Token], i: usize) -> bool
    ensures { result ≡ spec.passes spec.is_becomes (slice_get tokens.now i) }
{
    match tokens.get(i) {
        Some(token) => is_becomes(token),
        None => false,
    }
}

fn is_for_at(tokens: &[Token], i: usize) -> bool
    ensures { result ≡ spec.passes spec.is_for (slice_get tokens.now i) }
{
    match tokens.get(i) {
        Some(token) => is_for(token),
        None => false,
    }
}

// The role of the token of that number.
fn role_of(tokens: &[Token], n: usize) -> Role
    requires { n ≤ length tokens.now }
    ensures { result ≡ spec.role_of tokens.now n }
{
    if is_bracket_at(tokens, n + 1) {
        Role::Element
    } else if !is_becomes_at(tokens, n + 1) {
        Role::Value
    } else if is_for_at(tokens, n.saturating_sub(1)) {
        Role::Counter
    } else {
        Role::Target
    }
}

// ---- where it stands

/// Whether an index is among the names in scope.
pub(crate) fn is_inside(names: &[Known<'_>]) -> bool
    ensures { result ≡ spec.is_inside (map known_is names.now) }
{
    for k in names {
        if is_index(k.sort) {
            return true;
        }
    }
    false
}

// The numbers of the tokens behind those that opened the blocks which are open before a token.
fn fronts(
    alloc: Global,
    tokens: &[Token],
    offsets: &[u32],
    n: usize,
) -> Result<Vec<usize>, AllocError>
    requires { n ≤ length tokens.now }
    ensures { IfOk result (λ found. found.items ≡ spec.fronts (cut tokens.now offsets.now) n) }
{
    let blocks = open_blocks(alloc, &tokens[..n])?;
    let mut found = Vec::new(alloc);
    for block in &blocks {
        found.push(tokens_before(offsets, block.at) + 1)?;
    }
    Ok(found)
}

// Whether the token of that number is that name, with ":=" behind it.
fn is_assigned(tokens: &[Token], name: &[u8], i: usize) -> bool
    ensures { result ≡ spec.is_assigned tokens.now name.now i }
{
    if i < tokens.len() {
        is_name(&tokens[i], name) && is_becomes_at(tokens, i + 1)
    } else {
        false
    }
}

// Whether that name counts the turns of one of these blocks.
fn counts_in(tokens: &[Token], blocks: &[usize], name: &[u8]) -> bool
    ensures { result ≡ spec.counts_in tokens.now blocks.now name.now }
{
    for i in blocks {
        if is_assigned(tokens, name, *i) {
            return true;
        }
    }
    false
}

// ---- names

/// Where an unknown name stands: its role, whether that is inside pardo, and the blocks around it.
#[derive(Drop)]
struct Place<'t> {
    role: Role,
    inside: bool,
    tokens: &'t [Token],
    blocks: &'t [usize],
}

fn fits(place: &Place<'_>, k: Known<'_>) -> bool
    ensures { result ≡ spec.fits_by place.now.role place.now.inside place.now.tokens.now place.now.blocks.now (known_is k.entry) }
{
    let counts = counts_in(place.tokens, place.blocks, k.name);
    may_stand(place.role, place.inside, counts, k.sort)
}

// Those of some names that may stand there.
fn keep<'a>(
    alloc: Global,
    place: &Place<'_>,
    names: &[Known<'a>],
) -> Result<Vec<Known<'a>>, AllocError>
    ensures { IfOk result (λ kept. map known_is kept.items
        ≡ filter (spec.fits_by place.now.role place.now.inside place.now.tokens.now place.now.blocks.now) (map known_is names.now)) }
{
    let mut kept = Vec::new(alloc);
    for k in names {
        if fits(place, *k) {
            kept.push(*k)?;
        }
    }
    Ok(kept)
}

/// The role of a name at a place. The error is that memory was refused.
pub(crate) fn role_at(alloc: Global, text: &[u8], at: u32) -> Result<Role, AllocError>
    requires fits { length text.now ≤ longest }
    ensures { IfOk result (λ role. role ≡ spec.role_at (cut_of text.now) at) }
{
    match tokenize(alloc, text) {
        Ok((tokens, offsets)) => Ok(role_of(&tokens, tokens_before(&offsets, at))),
        // no text with a name that stands somewhere
        Err(LexError::BadToken(_)) => Ok(Role::Value),
        Err(LexError::OutOfMemory) => Err(AllocError),
    }
}

/// Of the names that are in scope at a place, those that may stand there in the place of the one that does. The error is that memory was
/// refused.
pub(crate) fn fitting_names<'a>(
    alloc: Global,
    text: &[u8],
    at: u32,
    names: &[Known<'a>],
) -> Result<Vec<Known<'a>>, AllocError>
    requires fits { length text.now ≤ longest }
    ensures { IfOk result (λ kept. map known_is kept.items ≡ spec.fitting (cut_of text.now) at (map known_is names.now)) }
{
    match tokenize(alloc, text) {
        Ok((tokens, offsets)) => {
            let n = tokens_before(&offsets, at);
            let blocks = fronts(alloc, &tokens, &offsets, n)?;
            let place = Place {
                role: role_of(&tokens, n),
                inside: is_inside(names),
                tokens: &tokens,
                blocks: &blocks,
            };
            keep(alloc, &place, names)
        }
        Err(LexError::BadToken(_)) => Ok(Vec::new(alloc)),
        Err(LexError::OutOfMemory) => Err(AllocError),
    }
}
