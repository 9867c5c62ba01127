//! Names, and what bears them.

ghost use Rattle.std.specs.Prelude.{◌≡◌, map};
ghost use Rattle.std.specs.Option.{option_map};
ghost use Rattle.pram_model.specs.Names.{is_one_of, same_text};
ghost use Rattle.help.specs.InScope.{declared_name as name_declared};
ghost use Rattle.memory_texts.specs.Chosen.{parts};
ghost use Rattle.step_text.specs.Focus as spec;

use help::bound_in;
use memory_texts::Choice;
use pram_trees::{Declaration, Layout, Name, Tree};

fn is_same(a: &[u8], b: &[u8]) -> bool
    ensures { result ≡ same_text a.now b.now }
{
    a == b
}

/// The name of the declaration that a cell is of; empty where there is no such cell.
pub(crate) fn cell_name(layout: &Layout, cell: usize) -> &[u8]
    ensures { result.now ≡ spec.cell_name layout.now cell }
{
    let mut rest = cell;
    for i in 0..layout.len() {
        let size = layout.size(i) as usize;
        if rest < size {
            return layout.name(i);
        }
        rest -= size;
    }
    b""
}

fn declared_name(d: &Declaration) -> &Name
    ensures { result.now ≡ name_declared d.now }
{
    match d {
        Declaration::Cell(x) => x,
        Declaration::Array(x, _, _) => x,
        Declaration::Uniform(x) => x,
    }
}

// Whether one of some declarations has that name.
fn is_of_one(declarations: &[Declaration], name: &[u8]) -> bool
    ensures { result ≡ is_one_of (map (λ d. (name_declared d).text) declarations.now) name.now }
{
    for d in declarations {
        if is_same(declared_name(d).text.as_slice(), name) {
            return true;
        }
    }
    false
}

// Whether a program has that name: a declaration's, or one that a pardo binds.
fn is_declared(tree: &Tree, name: &[u8]) -> bool
    ensures { result ≡ spec.is_declared tree.now name.now }
{
    is_of_one(tree.declarations(), name) || bound_in(tree, name).is_some()
}

// The first part of a word that is no name of the program.
fn undeclared_part<'a>(tree: &Tree, word: &'a str) -> Option<&'a str>
    ensures { option_map (λ part. part.now) result ≡ spec.undeclared_part tree.now (parts word.now) }
{
    for part in word.split(',') {
        if !is_declared(tree, part.as_bytes()) {
            return Some(part);
        }
    }
    None
}

/// The first part of the word, between its commas, that the program has no such name for: that of a shared declaration or of a uniform
/// variable, or of a local or an index of one of its pardos. `None`: it has each, or the choice has no word.
pub fn undeclared_name<'a>(tree: &Tree, names: Choice<'a>) -> Option<&'a str>
    // It is the first of the given names that the program doesn't have, and none where it has all.
    ensures { option_map (λ part. part.now) result ≡ spec.undeclared_name tree.now names.entry }
{
    match names {
        Choice::All | Choice::Nothing => None,
        Choice::Named(word) => undeclared_part(tree, word),
    }
}
