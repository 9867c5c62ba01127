//! What stands before the values of a line: `NAME =`, or `NAME[LOW..HIGH] =`.

ghost use Rattle.std.specs.Prelude.{◌≡◌};
ghost use Rattle.memory_texts.specs.Front.{Gives};
ghost use Rattle.memory_texts.specs.Headings as spec;
ghost use Rattle.memory_texts.specs.Headings.{headed};

use crate::front::{Run, expect, expect_front, number_front, number_next, past_blanks, split};

/// An interval of subscripts, and how many bytes of the line are left from its LOW on.
#[derive(Clone, Copy, Debug, PartialEq, Eq)]
pub struct Interval {
    pub low: i64,
    pub high: i64,
    pub left: usize,
}

/// The name of a declaration with the interval behind it, if there is one, and how many bytes of the line are left from the name on.
#[derive(Clone, Copy, Debug)]
pub struct Heading<'a> {
    pub name: &'a [u8],
    pub left: usize,
    pub interval: Option<Interval>,
}

// `..HIGH]` behind the LOW of an interval.
fn interval_from(low: i64, left: usize, text: &[u8]) -> Result<(Interval, &[u8]), usize>
    ensures { Gives (λ f. (f.0, f.1.now)) result (spec.interval_from low left text.now) }
{
    let dot = expect(b'.', text)?;
    let behind = expect_front(b'.', dot)?;
    let (high, rest) = number_next(behind)?;
    let rest = expect(b']', rest)?;
    Ok((Interval { low, high, left }, rest))
}

// `LOW..HIGH]`, behind white space.
fn interval_front(text: &[u8]) -> Result<(Interval, &[u8]), usize>
    ensures { Gives (λ f. (f.0, f.1.now)) result (spec.interval_front text.now) }
{
    let text = past_blanks(text);
    let (low, rest) = number_front(text)?;
    interval_from(low, text.len(), rest)
}

// The interval in brackets at the front, if there is one.
fn bracketed(text: &[u8]) -> Result<(Option<Interval>, &[u8]), usize>
    ensures { Gives (λ f. (f.0, f.1.now)) result (spec.bracketed text.now) }
{
    match text {
        [b, rest @ ..] => {
            if *b == b'[' {
                let (interval, rest) = interval_front(rest)?;
                Ok((Some(interval), rest))
            } else {
                Ok((None, text))
            }
        }
        [] => Ok((None, text)),
    }
}

// The name at the front.
fn name_front(text: &[u8]) -> Result<(&[u8], &[u8]), usize>
    ensures { Gives (λ f. (f.0.now, f.1.now)) result (spec.name_front text.now) }
{
    let (name, rest) = split(Run::Word, text);
    if name.is_empty() {
        return Err(text.len());
    }
    Ok((name, rest))
}

/// The heading at the front of a line, and what is behind its `=`; or how many bytes are left at the first place where something else
/// stands.
pub(crate) fn heading_front(text: &[u8]) -> Result<(Heading<'_>, &[u8]), usize>
    ensures { Gives (λ f. (headed f.0, f.1.now)) result (spec.heading_front text.now) }
{
    let (name, rest) = name_front(text)?;
    let (interval, rest) = bracketed(past_blanks(rest))?;
    let rest = expect(b'=', rest)?;
    Ok((
        Heading {
            name,
            left: text.len(),
            interval,
        },
        rest,
    ))
}
