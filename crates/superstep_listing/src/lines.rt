//! The next line of a listing, and the text behind it.

ghost use Rattle.std.specs.Prelude.{◌≡◌, ◌≤◌, ◌++◌, ◌∷◌, codes, ℕ, List, MatchBool, MatchOption};
ghost use Rattle.pram_model.specs.declared.rule.Rule.{Rule};
ghost use Rattle.pram_model.specs.Layout.{SharedEntry};
ghost use Rattle.superstep_instructions.specs.declared.instr.Instr.{Instr};
ghost use Rattle.superstep_listing.specs.Cutting.{Lacks};
ghost use Rattle.superstep_instructions.specs.Limits.{IsEntry, IsInstr};
ghost use Rattle.superstep_listing.specs.Listing as spec;

use crate::cut::cut;
use crate::entry_line::{Declaration, entry_of};
use crate::instr_line::instr_of;
use crate::numeral::field;
use crate::rule_line::rule_of;
use pram_model::Rule;
use superstep_instructions::Instr;

fn is_version(bytes: &[u8]) -> bool
    ensures value { MatchBool result (bytes.now ≡ codes "bsp 1") (bytes.now ≡ codes "bsp 1" → ⊥) }
{
    match bytes {
        b"bsp 1" => true,
        _ => false,
    }
}

/// Behind the first line.
pub(crate) fn next_version(text: &[u8]) -> Option<&[u8]>
    ensures value { MatchOption result ((more : List ℕ) → text.now ≡ codes "bsp 1" ++ 10 ∷ more → ⊥)
        (λ rest. text.now ≡ codes "bsp 1" ++ 10 ∷ rest.now) }
{
    let Some((bytes, rest)) = cut(text, b'\n') else {
        return None;
    };
    if !is_version(bytes) {
        return None;
    }
    Some(rest)
}

/// The rule, and what stands behind its line.
pub(crate) fn next_rule(text: &[u8]) -> Option<(Rule, &[u8])>
    ensures value { MatchOption result ((r : Rule) (more : List ℕ) → text.now ≡ spec.rule_line r ++ 10 ∷ more → ⊥)
        (λ x. text.now ≡ spec.rule_line x.0 ++ 10 ∷ x.1.now) }
{
    let Some((bytes, rest)) = cut(text, b'\n') else {
        return None;
    };
    let Some(rule) = rule_of(bytes) else {
        return None;
    };
    Some((rule, rest))
}

/// The number in that range behind this word, and what stands behind the line.
pub(crate) fn next_field<'a>(
    text: &'a [u8],
    name: &[u8],
    least: u32,
    most: u32,
) -> Option<(u32, &'a [u8])>
    requires one_word { Lacks 32 name.now }
    requires one_line { Lacks 10 name.now }
    ensures value { MatchOption result
        ((n : ℕ) (more : List ℕ) → least ≤ n → n ≤ most → text.now ≡ spec.line (spec.field_words name.now n) ++ 10 ∷ more → ⊥)
        (λ x. (least ≤ x.0) × (x.0 ≤ most) × (text.now ≡ spec.line (spec.field_words name.now x.0) ++ 10 ∷ x.1.now)) }
{
    let Some((bytes, rest)) = cut(text, b'\n') else {
        return None;
    };
    let Some(number) = field(bytes, name, least, most) else {
        return None;
    };
    Some((number, rest))
}

/// A declaration, and what stands behind its line.
pub(crate) fn next_entry(text: &[u8]) -> Option<(Declaration<'_>, &[u8])>
    ensures value { MatchOption result
        ((e : SharedEntry) (more : List ℕ) → IsEntry e → text.now ≡ spec.entry_line e ++ 10 ∷ more → ⊥)
        (λ x. IsEntry (record { name = x.0.name.now; bounds = x.0.bounds })
        × (text.now ≡ spec.line (spec.entry_words x.0.name.now x.0.bounds) ++ 10 ∷ x.1.now)) }
{
    let Some((bytes, rest)) = cut(text, b'\n') else {
        return None;
    };
    let Some(entry) = entry_of(bytes) else {
        return None;
    };
    Some((entry, rest))
}

/// The instruction of that number, and what stands behind its line.
pub(crate) fn next_instr(text: &[u8], place: u32) -> Option<(Instr, &[u8])>
    ensures value { MatchOption result
        ((i : Instr) (more : List ℕ) → IsInstr i → text.now ≡ spec.line (spec.instr_words place i) ++ 10 ∷ more → ⊥)
        (λ x. text.now ≡ spec.line (spec.instr_words place x.0) ++ 10 ∷ x.1.now) }
{
    let Some((bytes, rest)) = cut(text, b'\n') else {
        return None;
    };
    let Some(instr) = instr_of(bytes, place) else {
        return None;
    };
    Some((instr, rest))
}
