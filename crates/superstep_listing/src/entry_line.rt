//! The lines of declarations.

ghost use Rattle.std.specs.Prelude.{◌≡◌, ◌++◌, ◌∷◌, codes, ℕ, ℤ, List, Some, None, MatchOption};
ghost use Rattle.std.specs.Fmt.{signed_decimal};
ghost use Rattle.pram_model.specs.Layout.{SharedEntry};
ghost use Rattle.pram_model.specs.Names.{IsName};
ghost use Rattle.superstep_instructions.specs.Limits.{AreBounds, IsEntry};
ghost use Rattle.superstep_listing.specs.Listing as spec;
ghost use Rattle.superstep_listing.specs.Names as names;

use crate::cut::cut;
use crate::numeral::number;
use pram_model::is_name;

/// No subscript is below it.
const LEAST: i64 = 0;

/// A declaration: its name, and its bounds where it is an array.
#[derive(Clone, Copy)]
pub(crate) struct Declaration<'a> {
    pub(crate) name: &'a [u8],
    pub(crate) bounds: Option<(i64, i64)>,
}

/// The bounds of an array: both from 0 on, the low one not above the high one.
fn bounds_of(bytes: &[u8]) -> Option<(i64, i64)>
    ensures value { MatchOption result
        ((low high : ℤ) → AreBounds (Some (low, high)) → bytes.now ≡ signed_decimal low ++ 32 ∷ signed_decimal high → ⊥)
        (λ b. AreBounds (Some (b.0, b.1)) × (bytes.now ≡ signed_decimal b.0 ++ 32 ∷ signed_decimal b.1)) }
{
    let Some((front, back)) = cut(bytes, b' ') else {
        return None;
    };
    let Some(low) = number(front) else {
        return None;
    };
    let Some(high) = number(back) else {
        return None;
    };
    if low < LEAST || high < low {
        return None;
    }
    Some((low, high))
}

/// What a declaration declares.
#[derive(Clone, Copy)]
enum Kind {
    Cell,
    Array,
}

/// What the first word of a declaration says.
fn kind_of(word: &[u8]) -> Option<Kind>
    ensures value { MatchOption result
        ((word.now ≡ codes "cell" → ⊥) × (word.now ≡ codes "array" → ⊥)) (λ k. word.now ≡ names.kind_word k) }
{
    match word {
        b"cell" => Some(Kind::Cell),
        b"array" => Some(Kind::Array),
        _ => None,
    }
}

/// A single cell of this name.
fn cell_of(name: &[u8]) -> Option<Declaration<'_>>
    ensures value { MatchOption result (IsName name.now → ⊥)
        (λ d. IsName name.now × (d.name.now ≡ name.now) × (d.bounds ≡ None)) }
{
    if !is_name(name) {
        return None;
    }
    Some(Declaration { name, bounds: None })
}

/// The name and the bounds of an array.
fn array_of(bytes: &[u8]) -> Option<Declaration<'_>>
    ensures value { MatchOption result
        ((name : List ℕ) (low high : ℤ) → IsName name → AreBounds (Some (low, high))
        → bytes.now ≡ name ++ 32 ∷ (signed_decimal low ++ 32 ∷ signed_decimal high) → ⊥)
        (λ d. IsName d.name.now × names.AreArray d.bounds (λ low high.
        bytes.now ≡ d.name.now ++ 32 ∷ (signed_decimal low ++ 32 ∷ signed_decimal high))) }
{
    let Some((name, rest)) = cut(bytes, b' ') else {
        return None;
    };
    if !is_name(name) {
        return None;
    }
    match bounds_of(rest) {
        Some((low, high)) => Some(Declaration {
            name,
            bounds: Some((low, high)),
        }),
        None => None,
    }
}

/// The declaration of a line.
pub(crate) fn entry_of(bytes: &[u8]) -> Option<Declaration<'_>>
    ensures value { MatchOption result
        ((e : SharedEntry) → IsEntry e → bytes.now ≡ spec.entry_line e → ⊥)
        (λ d. IsEntry (record { name = d.name.now; bounds = d.bounds })
        × (bytes.now ≡ spec.line (spec.entry_words d.name.now d.bounds))) }
{
    let Some((word, rest)) = cut(bytes, b' ') else {
        return None;
    };
    let Some(kind) = kind_of(word) else {
        return None;
    };
    match kind {
        Kind::Cell => cell_of(rest),
        Kind::Array => array_of(rest),
    }
}
