//! What an expression comes to: a function for each line of the grammar.

ghost use Rattle.std.specs.Prelude.{◌≡◌, ◌≤◌, ◌<◌, length, IfOk, IfSome};
ghost use Rattle.std.specs.Option.{option_map};
ghost use Rattle.sized_texts.specs.Expressions as spec;
ghost use Rattle.sized_texts.specs.Front as front;
ghost use Rattle.sized_texts.specs.Reading.{Gives, misplaced};
ghost use Rattle.sized_texts.specs.Reading as reading;

use crate::atom::{Atom, atom_of, operator_of};
use crate::front::{past_spaces, split_token};
use crate::line::Line;
use crate::operation::{Function, Operator, applied, called};
use crate::reason::Reason;
use crate::size_table::SizeTable;
use crate::stop::{Wrong, placed, wrong_at};

/// The greatest number of levels that are open at once.
const DEEPEST: u8 = 64;

// Why the front of a text can't stand where it does.
fn misplaced(text: &[u8]) -> Reason
    ensures { result ≡ misplaced text.now }
{
    match text {
        [] => Reason::NotClosed,
        [b, ..] => {
            if *b == b'\n' {
                Reason::NotClosed
            } else {
                Reason::Unexpected
            }
        }
    }
}

// The text behind a byte that has to be at the front.
fn expect_front(text: &[u8], byte: u8) -> Result<&[u8], Wrong>
    ensures gives { Gives (λ rest. rest.now) result (reading.expect_front byte text.now) }
    ensures shorter { IfOk result (λ rest. length rest.now < length text.now) }
{
    match text {
        [b, rest @ ..] => {
            if *b == byte {
                Ok(rest)
            } else {
                Err(wrong_at(misplaced(text), text))
            }
        }
        [] => Err(wrong_at(Reason::NotClosed, text)),
    }
}

// The text behind a byte that has to be the next one behind white space.
fn expect(text: &[u8], byte: u8) -> Result<&[u8], Wrong>
    ensures gives { Gives (λ rest. rest.now) result (reading.expect byte text.now) }
    ensures shorter { IfOk result (λ rest. length rest.now < length text.now) }
{
    expect_front(past_spaces(text), byte)
}

// The operator of a line at the front, and the text behind it.
fn operator_at(line: Line, text: &[u8]) -> Option<(Operator, &[u8])>
    ensures operator { option_map (λ f. f.0) result ≡ spec.operator_of line (front.front text.now) }
    ensures behind { IfSome result (λ f. f.1.now ≡ front.behind text.now) }
    ensures shorter { IfSome result (λ f. length f.1.now < length text.now) }
{
    let (token, rest) = split_token(text);
    match operator_of(line, token) {
        Some(operator) => Some((operator, rest)),
        None => None,
    }
}

// A sum one level further in. The level is opened by a token with that many bytes left.
#[cycle(expression)]
fn inner<'a>(
    sizes: &SizeTable<'_>,
    left: usize,
    text: &'a [u8],
    depth: u8,
) -> Result<(u64, &'a [u8]), Wrong>
    ensures gives { Gives (λ f. (f.0, f.1.now)) result (spec.further sizes.now depth left text.now) }
    ensures shorter { IfOk result (λ f. length f.1.now ≤ length text.now) }
{
    if depth == 0 {
        return Err(Wrong {
            reason: Reason::TooDeep,
            left,
        });
    }
    chain(sizes, Line::Sum, text, depth - 1)
}

// A sum one level further in, and the byte that closes it.
#[cycle(expression)]
fn nested<'a>(
    sizes: &SizeTable<'_>,
    close: u8,
    left: usize,
    text: &'a [u8],
    depth: u8,
) -> Result<(u64, &'a [u8]), Wrong>
    ensures gives { Gives (λ f. (f.0, f.1.now)) result (spec.nested sizes.now (spec.further sizes.now depth) close left text.now) }
    ensures shorter { IfOk result (λ f. length f.1.now ≤ length text.now) }
{
    let (value, rest) = inner(sizes, left, text, depth)?;
    let rest = expect(rest, close)?;
    Ok((value, rest))
}

// A sum in parentheses, and what the function makes of it.
#[cycle(expression)]
fn group<'a>(
    sizes: &SizeTable<'_>,
    function: Function,
    left: usize,
    text: &'a [u8],
    depth: u8,
) -> Result<(u64, &'a [u8]), Wrong>
    ensures gives { Gives (λ f. (f.0, f.1.now)) result (spec.group sizes.now (spec.further sizes.now depth) function left text.now) }
    ensures shorter { IfOk result (λ f. length f.1.now ≤ length text.now) }
{
    let (inner, rest) = nested(sizes, b')', left, text, depth)?;
    let value = placed(called(function, inner), left)?;
    Ok((value, rest))
}

// A function and the sum in parentheses behind it.
#[cycle(expression)]
fn call<'a>(
    sizes: &SizeTable<'_>,
    function: Function,
    left: usize,
    text: &'a [u8],
    depth: u8,
) -> Result<(u64, &'a [u8]), Wrong>
    ensures gives { Gives (λ f. (f.0, f.1.now)) result (spec.call sizes.now (spec.further sizes.now depth) function left text.now) }
    ensures shorter { IfOk result (λ f. length f.1.now ≤ length text.now) }
{
    let inside = expect(text, b'(')?;
    group(sizes, function, left, inside, depth)
}

// A power of two sums in parentheses.
#[cycle(expression)]
fn power<'a>(
    sizes: &SizeTable<'_>,
    left: usize,
    text: &'a [u8],
    depth: u8,
) -> Result<(u64, &'a [u8]), Wrong>
    ensures gives { Gives (λ f. (f.0, f.1.now)) result (spec.power sizes.now (spec.further sizes.now depth) left text.now) }
    ensures shorter { IfOk result (λ f. length f.1.now ≤ length text.now) }
{
    let inside = expect(text, b'(')?;
    let (base, behind) = nested(sizes, b',', left, inside, depth)?;
    let (exponent, rest) = nested(sizes, b')', left, behind, depth)?;
    let value = placed(applied(Operator::Power, base, exponent), left)?;
    Ok((value, rest))
}

// An operand by its first token, with that many bytes left there, and the text behind the token.
#[cycle(expression)]
fn operand_by<'a>(
    sizes: &SizeTable<'_>,
    atom: Atom,
    left: usize,
    rest: &'a [u8],
    depth: u8,
) -> Result<(u64, &'a [u8]), Wrong>
    ensures gives { Gives (λ f. (f.0, f.1.now)) result (spec.operand_by sizes.now (spec.further sizes.now depth) atom left rest.now) }
    ensures shorter { IfOk result (λ f. length f.1.now ≤ length rest.now) }
{
    match atom {
        Atom::Value(value) => Ok((value, rest)),
        Atom::Paren => group(sizes, Function::Same, left, rest, depth),
        Atom::Call(function) => call(sizes, function, left, rest, depth),
        Atom::Power => power(sizes, left, rest, depth),
        Atom::Bad(reason) => Err(Wrong { reason, left }),
    }
}

// An operand.
#[cycle(expression)]
#[tactic(auto, unfolding(crate::specs::Expressions::operand))]
fn operand<'a>(sizes: &SizeTable<'_>, text: &'a [u8], depth: u8) -> Result<(u64, &'a [u8]), Wrong>
    ensures gives { Gives (λ f. (f.0, f.1.now)) result (spec.operand sizes.now (spec.further sizes.now depth) text.now) }
    ensures shorter { IfOk result (λ f. length f.1.now ≤ length text.now) }
{
    let text = past_spaces(text);
    let (token, rest) = split_token(text);
    operand_by(sizes, atom_of(sizes, token), text.len(), rest, depth)
}

// What a line stands on.
#[cycle(expression)]
fn tight<'a>(
    sizes: &SizeTable<'_>,
    line: Line,
    text: &'a [u8],
    depth: u8,
) -> Result<(u64, &'a [u8]), Wrong>
    ensures gives { Gives (λ f. (f.0, f.1.now)) result (spec.tight sizes.now (spec.further sizes.now depth) line text.now) }
    ensures shorter { IfOk result (λ f. length f.1.now ≤ length text.now) }
{
    match line {
        Line::Sum => chain(sizes, Line::Product, text, depth),
        Line::Product => operand(sizes, text, depth),
    }
}

// Operands with operators of a line between them, from left to right.
#[cycle(expression)]
fn chain<'a>(
    sizes: &SizeTable<'_>,
    line: Line,
    text: &'a [u8],
    depth: u8,
) -> Result<(u64, &'a [u8]), Wrong>
    ensures gives { Gives (λ f. (f.0, f.1.now)) result (spec.at_line sizes.now (spec.further sizes.now depth) line text.now) }
    ensures shorter { IfOk result (λ f. length f.1.now ≤ length text.now) }
{
    let (first, behind) = tight(sizes, line, text, depth)?;
    let mut value = first;
    let mut rest = past_spaces(behind);
    while let Some((operator, after)) = operator_at(line, rest) {
        let (operand, behind) = tight(sizes, line, after, depth)?;
        value = placed(applied(operator, value, operand), rest.len())?;
        rest = past_spaces(behind);
    }
    Ok((value, rest))
}

/// The number of an expression behind its opening brace, and the text behind the closing one.
#[tactic(auto, unfolding(crate::specs::Expressions::braced))]
pub(crate) fn braced<'a>(sizes: &SizeTable<'_>, text: &'a [u8]) -> Result<(u64, &'a [u8]), Wrong>
    ensures gives { Gives (λ f. (f.0, f.1.now)) result (spec.braced sizes.now text.now) }
    ensures shorter { IfOk result (λ f. length f.1.now < length text.now) }
{
    let (value, rest) = chain(sizes, Line::Sum, text, DEEPEST)?;
    let rest = expect(rest, b'}')?;
    Ok((value, rest))
}

/// The number of an expression that is all of a text.
#[tactic(auto, unfolding(crate::specs::Expressions::whole))]
pub(crate) fn whole(sizes: &SizeTable<'_>, text: &[u8]) -> Result<u64, Wrong>
    ensures gives { Gives (λ v. v) result (spec.whole sizes.now text.now) }
{
    let (value, rest) = chain(sizes, Line::Sum, text, DEEPEST)?;
    if rest.is_empty() {
        Ok(value)
    } else {
        Err(wrong_at(Reason::Unexpected, rest))
    }
}
