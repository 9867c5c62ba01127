//! The numbers of a listing.

ghost use Rattle.std.specs.Prelude.{◌≡◌, ◌≤◌, ℕ, ℤ, MatchOption};
ghost use Rattle.std.specs.Fmt.{signed_decimal};
ghost use Rattle.superstep_instructions.specs.Code.{Wide};
ghost use Rattle.superstep_listing.specs.Cutting.{Lacks};
ghost use Rattle.superstep_instructions.specs.Limits.{Fits};
ghost use Rattle.superstep_listing.specs.Listing as spec;

use crate::cut::cut;
use itoa::Buffer;

/// The number that has this spelling: decimal, without leading zeros or `-0`.
pub(crate) fn number(word: &[u8]) -> Option<i64>
    ensures value { MatchOption result ((z : ℤ) → Fits (Wide z) → word.now ≡ signed_decimal z → ⊥)
        (λ z. Fits (Wide z) × (word.now ≡ signed_decimal z)) }
{
    let Ok(text) = str::from_utf8(word) else {
        return None;
    };
    let Ok(value) = text.parse::<i64>() else {
        return None;
    };
    let mut buffer = Buffer::new();
    if buffer.format(value).as_bytes() == word {
        Some(value)
    } else {
        None
    }
}

/// The number of a line that is this word and a number in that range.
pub(crate) fn field(bytes: &[u8], name: &[u8], least: u32, most: u32) -> Option<u32>
    requires one_word { Lacks 32 name.now }
    ensures value { MatchOption result
        ((n : ℕ) → least ≤ n → n ≤ most → bytes.now ≡ spec.line (spec.field_words name.now n) → ⊥)
        (λ n. (least ≤ n) × (n ≤ most) × (bytes.now ≡ spec.line (spec.field_words name.now n))) }
{
    let Some((word, rest)) = cut(bytes, b' ') else {
        return None;
    };
    if word != name {
        return None;
    }
    let Some(value) = number(rest) else {
        return None;
    };
    if value < (least as i64) || (most as i64) < value {
        return None;
    }
    Some(value as u32)
}
