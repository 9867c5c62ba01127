//! Names that hold in the body of a pardo alone: its index and its locals.

ghost use Rattle.std.specs.Prelude.{◌≡◌, Some, map};
ghost use Rattle.std.specs.Option.{option_map};
ghost use Rattle.pram_model.specs.Names.{same_text};
ghost use Rattle.help.specs.declared.known.Sort.TheVariants.{Local};
ghost use Rattle.help.specs.InScope.{as_declared as is_declared, known_is};
ghost use Rattle.help.specs.Nearness.{named};
ghost use Rattle.help.specs.Bound as spec;

use crate::known::{Known, Sort, as_declared};
use pram_trees::{Name, Stmt, Tree};

fn is_same(a: &[u8], b: &[u8]) -> bool
    ensures { result ≡ same_text a.now b.now }
{
    a == b
}

// The first of some locals that is spelled so.
fn local_of<'a>(locals: &'a [Name], word: &[u8]) -> Option<Known<'a>>
    ensures { option_map known_is result ≡ named (map (λ x. is_declared x Local) locals.now) word.now }
{
    for x in locals {
        if is_same(x.text.as_slice(), word) {
            return Some(as_declared(x, Sort::Local));
        }
    }
    None
}

// The index or the local of a pardo that is spelled so, and else what was found before.
fn pardo_bound<'a>(
    word: &[u8],
    index: &'a Name,
    locals: &'a [Name],
    found: Option<Known<'a>>,
) -> Option<Known<'a>>
    ensures { option_map known_is result ≡ spec.pardo_bound word.now index.now locals.now (option_map known_is found.entry) }
{
    if is_same(index.text.as_slice(), word) {
        return Some(as_declared(index, Sort::Index));
    }
    match local_of(locals, word) {
        Some(known) => Some(known),
        None => found,
    }
}

// The one of the last pardo within a statement that has one, and else what was found before.
#[cycle(seeking)]
fn seek_in_statement<'a>(
    word: &[u8],
    statement: &'a Stmt,
    found: Option<Known<'a>>,
) -> Option<Known<'a>>
    ensures { option_map known_is result ≡ spec.statement_bound word.now statement.now (option_map known_is found.entry) }
{
    match statement {
        Stmt::Assign { .. } => found,
        Stmt::AssignElement { .. } => found,
        Stmt::Print { .. } => found,
        Stmt::While { body, .. } => seek_in_block(word, body.as_slice(), found),
        Stmt::If {
            then_part,
            else_part,
            ..
        } => {
            let behind = seek_in_block(word, then_part.as_slice(), found);
            match else_part {
                None => behind,
                Some(other) => seek_in_block(word, other.as_slice(), behind),
            }
        }
        Stmt::For { body, .. } => seek_in_block(word, body.as_slice(), found),
        Stmt::Pardo {
            index,
            locals,
            body,
            ..
        } => {
            let mine = pardo_bound(word, index, locals.as_slice(), found);
            seek_in_block(word, body.as_slice(), mine)
        }
    }
}

#[cycle(seeking)]
fn seek_in_block<'a>(word: &[u8], body: &'a [Stmt], found: Option<Known<'a>>) -> Option<Known<'a>>
    ensures { option_map known_is result ≡ spec.block_bound word.now body.now (option_map known_is found.entry) }
{
    let mut last = found;
    for statement in body {
        last = seek_in_statement(word, statement, last);
    }
    last
}

/// The index of a pardo, or one of its locals, that is spelled so, wherever that pardo stands in a program: of several that of the last.
pub fn bound_in<'a>(tree: &'a Tree, word: &[u8]) -> Option<Known<'a>>
    // It is the index or the local of this spelling, of the last pardo that has one, wherever the pardo stands.
    ensures { option_map known_is result ≡ spec.bound_in tree.now word.now }
{
    seek_in_block(word, tree.body(), None)
}
