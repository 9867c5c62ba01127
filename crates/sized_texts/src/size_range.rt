//! Sizes by their first and their greatest one: `4..64*2`, `10..50+10`.

ghost use Rattle.std.specs.Prelude.{◌≡◌};
ghost use Rattle.std.specs.Option.{option_map};
ghost use Rattle.sized_texts.specs.SizeRanges as spec;

use crate::size_word::{digits_value, split_name};

/// How one size is made of the one before.
#[derive(Clone, Copy, Debug, PartialEq, Eq)]
pub enum Growth {
    Times(u64),
    Plus(u64),
}

/// Sizes from the first one on, none of them above the last.
#[derive(Clone, Copy, Debug, PartialEq, Eq)]
pub struct Range {
    pub first: u64,
    pub last: u64,
    pub growth: Growth,
}

// What stands behind two dots at the front.
fn behind_dots(text: &[u8]) -> Option<&[u8]>
    ensures { option_map (λ rest. rest.now) result ≡ spec.behind_dots text.now }
{
    match text {
        [first, second, rest @ ..] => {
            if *first == b'.' && *second == b'.' {
                Some(rest)
            } else {
                None
            }
        }
        _ => None,
    }
}

fn times(factor: Option<u64>) -> Option<Growth>
    ensures { result ≡ spec.times factor }
{
    match factor {
        None => None,
        Some(factor) => {
            if factor >= 2 {
                Some(Growth::Times(factor))
            } else {
                None
            }
        }
    }
}

fn plus(step: Option<u64>) -> Option<Growth>
    ensures { result ≡ spec.plus step }
{
    match step {
        None => None,
        Some(step) => {
            if step >= 1 {
                Some(Growth::Plus(step))
            } else {
                None
            }
        }
    }
}

// The growth that a text says: `*F` or `+S`.
fn growth_of(text: &[u8]) -> Option<Growth>
    ensures { result ≡ spec.growth_of text.now }
{
    match text {
        [] => None,
        [sign, digits @ ..] => {
            if *sign == b'*' {
                times(digits_value(digits))
            } else if *sign == b'+' {
                plus(digits_value(digits))
            } else {
                None
            }
        }
    }
}

// Whether sizes can grow so from that one on.
fn begins(growth: Growth, first: u64) -> bool
    ensures { result ≡ spec.begins growth first }
{
    match growth {
        Growth::Times(_) => first >= 1,
        Growth::Plus(_) => true,
    }
}

fn range_by(first: Option<u64>, last: Option<u64>, growth: Option<Growth>) -> Option<Range>
    ensures { result ≡ spec.range_by first last growth }
{
    match (first, last, growth) {
        (Some(first), Some(last), Some(growth)) => {
            if first <= last && begins(growth, first) {
                Some(Range {
                    first,
                    last,
                    growth,
                })
            } else {
                None
            }
        }
        _ => None,
    }
}

/// The sizes that a text `A..B*F` or `A..B+S` says.
pub(crate) fn range_of(text: &[u8]) -> Option<Range>
    ensures { result ≡ spec.range_of text.now }
{
    let (first, rest) = split_name(text);
    match behind_dots(rest) {
        None => None,
        Some(more) => {
            let (last, growth) = split_name(more);
            range_by(digits_value(first), digits_value(last), growth_of(growth))
        }
    }
}
