//! Which shared declarations are written where a run ends.

ghost use Rattle.std.specs.Prelude.{◌≡◌, map};
ghost use Rattle.std.specs.Option.{option_map};
ghost use Rattle.pram_model.specs.Names.{is_one_of, same_text};
ghost use Rattle.memory_texts.specs.Chosen as spec;

use pram_model::Layout;

/// Which shared declarations are written where a run ends.
#[derive(Clone, Copy, Debug, PartialEq, Eq)]
pub enum Choice<'a> {
    /// All of them, behind printed numbers and `ended`.
    All,
    /// None: printed numbers and `ended` alone.
    Nothing,
    /// Those whose names stand in the word, separated by commas, and nothing else.
    Named(&'a str),
}

fn is_same(a: &[u8], b: &[u8]) -> bool
    ensures { result ≡ same_text a.now b.now }
{
    a == b
}

// Whether a name stands in a word, between commas.
fn stands_in(word: &str, name: &[u8]) -> bool
    ensures { result ≡ is_one_of (spec.parts word.now) name.now }
{
    for part in word.split(',') {
        if is_same(part.as_bytes(), name) {
            return true;
        }
    }
    false
}

/// Whether the values of a declaration of that name are written.
pub fn is_chosen(choice: Choice<'_>, name: &[u8]) -> bool
    ensures { result ≡ spec.is_chosen choice.entry name.now }
{
    match choice {
        Choice::All => true,
        Choice::Nothing => false,
        Choice::Named(word) => stands_in(word, name),
    }
}

// Whether a declaration has that name.
fn declares(layout: &Layout, name: &[u8]) -> bool
    ensures { result ≡ spec.declares layout.now name.now }
{
    for i in 0..layout.len() {
        if is_same(layout.name(i), name) {
            return true;
        }
    }
    false
}

// The first part of a word that is no declaration's name.
fn unknown_part<'a>(layout: &Layout, word: &'a str) -> Option<&'a str>
    ensures { option_map (λ part. part.now) result ≡ spec.unknown_part layout.now (spec.parts word.now) }
{
    for part in word.split(',') {
        if !declares(layout, part.as_bytes()) {
            return Some(part);
        }
    }
    None
}

/// The first part of the word, between its commas, that is the name of no declaration: an empty part, for one. `None`: each part is the
/// name of a declaration, or the choice has no word.
pub fn unknown_name<'a>(layout: &Layout, choice: Choice<'a>) -> Option<&'a str>
    // The answer is the first part of the word between its commas that is no declaration's name, if there is one.
    ensures { option_map (λ part. part.now) result ≡ spec.unknown_name layout.now choice.entry }
{
    match choice {
        Choice::All | Choice::Nothing => None,
        Choice::Named(word) => unknown_part(layout, word),
    }
}
