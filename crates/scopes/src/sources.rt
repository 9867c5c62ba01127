//! From where the cells of a postcondition's declarations come.

ghost use Rattle.std.specs.Prelude.{◌≡◌, ◌++◌, ◌<◌, IsTrue, Some, codes, length, map, slice_get};
ghost use Rattle.std.specs.List.{find};
ghost use Rattle.std.specs.Option.{option_map};
ghost use Rattle.pram_model.specs.Layout.{SharedEntry, total_size};
ghost use Rattle.pram_model.specs.Names.{same_text};
ghost use Rattle.scopes.specs.Handed as spec;

use pram_trees::Layout;

/// Cells that are handed on: from a number on, among those that the program left and, behind these, those that it held before; with the
/// bounds of their declaration.
#[derive(Clone, Copy)]
pub(crate) struct Origin {
    pub start: u32,
    pub bounds: Option<(i64, i64)>,
}

/// Whether two texts are one.
pub fn is_same_text(text: &[u8], other: &[u8]) -> bool
    ensures { result ≡ same_text text.now other.now }
{
    text == other
}

/// Whether two declarations have the same bounds.
pub fn are_same_bounds(bounds: Option<(i64, i64)>, other: Option<(i64, i64)>) -> bool
    ensures { result ≡ spec.same_bounds bounds other }
{
    match (bounds, other) {
        (None, None) => true,
        (Some((low, high)), Some((from, to))) => low == from && high == to,
        (Some(_), None) | (None, Some(_)) => false,
    }
}

// Whether a text is `opening_` and a name.
fn is_opening(name: &[u8], text: &[u8]) -> bool
    ensures { result ≡ same_text (codes "opening_" ++ name.now) text.now }
{
    match text.strip_prefix(b"opening_") {
        Some(rest) => is_same_text(name, rest),
        None => false,
    }
}

// The first declaration of a name.
fn own_source(layout: &Layout, name: &[u8]) -> Option<Origin>
    ensures { result ≡ option_map spec.origin_of (find (spec.is_named name.now) (spec.placed 0 layout.now)) }
{
    for i in 0..layout.len() {
        if is_same_text(layout.name(i), name) {
            return Some(Origin {
                start: layout.range(i).first,
                bounds: layout.bounds(i),
            });
        }
    }
    None
}

// The first declaration that has a name behind `opening_`.
fn opening_source(layout: &Layout, name: &[u8]) -> Option<Origin>
    ensures { result ≡ option_map spec.origin_of
        (find (spec.is_named name.now) (spec.placed (total_size layout.now) (map spec.opened layout.now))) }
{
    for i in 0..layout.len() {
        if is_opening(layout.name(i), name) {
            return Some(Origin {
                start: layout.cells() + layout.range(i).first,
                bounds: layout.bounds(i),
            });
        }
    }
    None
}

/// From where a declaration of that name gets its cells, if there is such a place: the program's declaration of that name, as it was left,
/// or else the one that has it behind `opening_`, as it was before.
pub(crate) fn source(layout: &Layout, name: &[u8]) -> Option<Origin>
    ensures { result ≡ spec.source layout.now name.now }
{
    match own_source(layout, name) {
        Some(source) => Some(source),
        None => opening_source(layout, name),
    }
}
