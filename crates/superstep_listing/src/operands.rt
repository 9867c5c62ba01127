//! The operands of an instruction's line.

ghost use Rattle.std.specs.Prelude.{◌≡◌, ◌≤◌, ◌++◌, ℤ, List, length, MatchOption};
ghost use Rattle.std.specs.List.{AllByRecursion};
ghost use Rattle.superstep_instructions.specs.Code.{Wide};
ghost use Rattle.superstep_listing.specs.Cutting.{Lacks, behind_word, spaced};
ghost use Rattle.superstep_instructions.specs.Limits.{Fits};

use crate::cut::cut;
use crate::numeral::number;
use arrayvec::ArrayVec;

/// No instruction has more operands.
const MOST: usize = 4;

/// The first word, and what stands behind the space that ends it, where one does.
pub(crate) fn first_word(text: &[u8]) -> (&[u8], Option<&[u8]>)
    ensures whole { text.now ≡ result.0.now ++ behind_word result.1 }
    ensures lacks { Lacks 32 result.0.now }
{
    match cut(text, b' ') {
        Some((word, rest)) => (word, Some(rest)),
        None => (text, None),
    }
}

/// The numbers behind a word, at most four, each behind a space.
pub(crate) fn numbers_behind(behind: Option<&[u8]>) -> Option<ArrayVec<i64, MOST>>
    ensures value { MatchOption result
        ((zs : List ℤ) → length zs ≤ 4 → AllByRecursion (λ z. Fits (Wide z)) zs → behind_word behind.entry ≡ spaced zs → ⊥)
        (λ v. AllByRecursion (λ z. Fits (Wide z)) v.items × (behind_word behind.entry ≡ spaced v.items)) }
{
    let mut found = ArrayVec::new();
    let mut left = behind;
    while let Some(text) = left {
        let (word, next) = first_word(text);
        let Some(value) = number(word) else {
            return None;
        };
        if found.len() == MOST {
            return None;
        }
        found.push(value);
        left = next;
    }
    Some(found)
}
