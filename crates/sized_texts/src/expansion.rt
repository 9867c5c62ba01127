//! From a text with sizes to the text of the language.

ghost use Rattle.std.specs.Prelude.{◌≡◌, ◌≤◌, length, Ok};
ghost use Rattle.pram_tokens.specs.Scanning.{longest};
ghost use Rattle.sized_texts.specs.Faults.{Answers, shown};
ghost use Rattle.sized_texts.specs.Expansion as spec;

use crate::expanded::{Expanded, add_byte, nothing};
use crate::fault::SizeFault;
use crate::head::sizes_of;
use crate::pieces::pieces;
use crate::size::Size;
use crate::size_table::{SizeTable, table_of};
use pram_tokens::LONGEST;
use std::alloc::Global;

// A text as it stands.
fn itself(alloc: Global, text: &[u8]) -> Result<Expanded, SizeFault>
    requires fits { length text.now ≤ longest }
    ensures answers { Answers shown result (Ok (spec.itself text.now)) }
{
    let mut to = nothing(alloc);
    for at in 0..text.len() {
        add_byte(&mut to, text[at], at as u32)?;
    }
    Ok(to)
}

// The number of the first given name that is no size.
fn undeclared(sizes: &SizeTable<'_>, given: &[Size]) -> Option<usize>
    ensures { result ≡ spec.undeclared sizes.now given.now }
{
    given
        .iter()
        .position(|size| sizes.value_of(size.name.as_slice()).is_none())
}

// An expansion that is not too long.
fn short(expanded: Expanded) -> Result<Expanded, SizeFault>
    ensures { Answers shown result (spec.short (shown expanded)) }
{
    if expanded.text.len() > LONGEST {
        return Err(SizeFault::TooLong);
    }
    Ok(expanded)
}

// What a text expands to where these are its sizes.
fn expanded(alloc: Global, sizes: &SizeTable<'_>, text: &[u8]) -> Result<Expanded, SizeFault>
    requires fits { length text.now ≤ longest }
    ensures { Answers shown result (spec.expanded sizes.now text.now) }
{
    if sizes.is_empty() {
        return itself(alloc, text);
    }
    short(pieces(alloc, sizes, text)?)
}

/// What a text expands to, where numbers are given for some of its sizes: the text of the language, and for each of its bytes the
/// offset in the text that it came from; all bytes of an expression's number came from its brace. A text without a line
/// `# size NAME = VALUE` before its first token is itself. Of two given numbers of one name the first is taken.
///
/// `SizeFault::BadSize` (E19) stands at the first size line that is wrong; behind that the first given name that is no size is
/// `SizeFault::NotDeclared`; and then `SizeFault::BadSize` stands at the first place of an expression that is wrong, or the expansion has
/// more than 1,048,576 bytes, which is `SizeFault::TooLong` (E2).
/// `SizeFault::OutOfMemory` (E16) says that memory was refused.
pub fn expand(alloc: Global, text: &[u8], given: &[Size]) -> Result<Expanded, SizeFault>
    requires fits { length text.now ≤ longest }
    // The answer is the text's expansion by the given numbers, text and places, or why and where it first has none;
    // unless memory was refused.
    ensures answers { Answers shown result (spec.expansion given.now text.now) }
{
    let table = table_of(alloc, given)?;
    let sizes = sizes_of(alloc, &table, text)?;
    match undeclared(&sizes, given) {
        Some(number) => Err(SizeFault::NotDeclared(number)),
        None => expanded(alloc, &sizes, text),
    }
}
