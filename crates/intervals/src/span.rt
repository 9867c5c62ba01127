//! Ranges of whole numbers, as wide as operations on 64 bits make them, and their parts of 64 bits.

ghost use Rattle.std.specs.Prelude.{◌≡◌, ◌&&◌, true, ℤ, pos, negsuc, ◌≤ℤ◌, IsSomeAnd, IfSome};
ghost use Rattle.std.specs.Int.{int_min, int_max};
ghost use Rattle.pram_values.specs.Value.{fits};
ghost use Rattle.intervals.specs.Cuts.{IsCut};
ghost use Rattle.intervals.specs.Intervals.{IsIn};

use crate::found::Found;
use crate::interval::Interval;

/// The whole numbers from a least to a greatest.
#[derive(Clone, Copy)]
pub(crate) struct Span {
    pub(crate) least: i128,
    pub(crate) greatest: i128,
}

// The numbers between two, whichever is less.
pub(crate) fn between(x: i128, y: i128) -> Span
    ensures least { result.least ≡ int_min x y }
    ensures greatest { result.greatest ≡ int_max x y }
{
    Span {
        least: x.min(y),
        greatest: x.max(y),
    }
}

// The least range that holds both.
pub(crate) fn joined(a: Span, b: Span) -> Span
    ensures least { result.least ≡ int_min a.least b.least }
    ensures greatest { result.greatest ≡ int_max a.greatest b.greatest }
{
    Span {
        least: a.least.min(b.least),
        greatest: a.greatest.max(b.greatest),
    }
}

// Whether a number has 64 bits.
fn is_word(x: i128) -> bool
    ensures { result ≡ fits x }
{
    i128::from(i64::MIN) <= x && x <= i128::from(i64::MAX)
}

// Whether both ends of a range have 64 bits.
fn has_words_alone(span: Span) -> bool
    ensures { result ≡ (fits span.least && fits span.greatest) }
{
    is_word(span.least) && is_word(span.greatest)
}

// The nearest number of 64 bits.
fn nearest(x: i128) -> i64
    ensures { result ≡ int_min (int_max x (negsuc 9223372036854775807)) (pos 9223372036854775807) }
{
    if x < i128::from(i64::MIN) {
        i64::MIN
    } else if x > i128::from(i64::MAX) {
        i64::MAX
    } else {
        x as i64
    }
}

// The numbers of 64 bits in a range.
fn part(span: Span) -> Option<Interval>
    ensures holds { (z : ℤ) → span.least ≤ℤ z → z ≤ℤ span.greatest → fits z ≡ true → IsSomeAnd result (λ i. IsIn z i) }
    ensures least { IfSome result (λ i. i.least ≡ int_max span.least (negsuc 9223372036854775807)) }
    ensures greatest { IfSome result (λ i. i.greatest ≡ int_min span.greatest (pos 9223372036854775807)) }
{
    if span.greatest < i128::from(i64::MIN) {
        return None;
    }
    if span.least > i128::from(i64::MAX) {
        return None;
    }
    Interval::of(nearest(span.least), nearest(span.greatest))
}

// What is found where just the numbers of a range are given, and whether there is a zero divisor.
pub(crate) fn cut(span: Span, may_divide_by_zero: bool) -> Found
    ensures cut { IsCut span.least span.greatest result.value result.may_overflow }
    ensures zero { result.may_divide_by_zero ≡ may_divide_by_zero }
{
    Found {
        value: part(span),
        may_overflow: !has_words_alone(span),
        may_divide_by_zero,
    }
}
