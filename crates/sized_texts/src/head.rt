//! The head of a text: the sizes that it declares before its first token.

ghost use Rattle.std.specs.Prelude.{◌≡◌, ◌≤◌, not, ◌==◌, length, IfOk, []};
ghost use Rattle.std.specs.List.{prefix_len};
ghost use Rattle.pram_tokens.specs.Lexemes as lexemes;
ghost use Rattle.pram_tokens.specs.Scanning.{longest};
ghost use Rattle.sized_texts.specs.Faults.{Answers, in_text};
ghost use Rattle.sized_texts.specs.SizeLines as spec;
ghost use Rattle.sized_texts.specs.SizeTables.{size_by};

use crate::fault::SizeFault;
use crate::pieces::fault_in;
use crate::size_line::{declaration, line_of};
use crate::size_table::SizeTable;
use crate::stop::Wrong;
use std::alloc::Global;

/// White space: space, tab, LF, CR.
pub(crate) fn is_blank(b: u8) -> bool
    ensures { result ≡ lexemes.is_blank b }
{
    matches!(b, b' ' | b'\t' | b'\n' | b'\r')
}

/// How many bytes are left of a line.
pub(crate) fn comment_len(text: &[u8]) -> usize
    ensures value { result ≡ spec.comment_length text.now }
    ensures within { result ≤ length text.now }
{
    let mut end = 0;
    while end < text.len() && text[end] != b'\n' {
        end += 1;
    }
    end
}

// The number of a size of that name: the given one, if one is given.
fn value_of(given: &SizeTable<'_>, name: &[u8], value: u64) -> u64
    ensures { size_by name.now result ≡ spec.size_of given.now name.now value }
{
    given.value_of(name).unwrap_or(value)
}

// Takes in what a comment declares, where so many bytes of a text are left.
fn declare<'a>(
    given: &SizeTable<'_>,
    sizes: &mut SizeTable<'a>,
    comment: &'a [u8],
    total: usize,
    left: usize,
) -> Result<(), SizeFault>
    requires { total ≤ longest }
    ensures { Answers (λ _. sizes.new) result
        (in_text total (spec.declare given.now sizes.old left (spec.line_of comment.now))) }
{
    match line_of(comment) {
        None => Ok(()),
        Some((name, text)) => match declaration(sizes, name, text) {
            Err(reason) => Err(fault_in(total, Wrong { reason, left })),
            Ok(value) => {
                sizes.declare(name, value_of(given, name, value))?;
                Ok(())
            }
        },
    }
}

/// The sizes that a text declares, where those numbers are given.
pub(crate) fn sizes_of<'a>(
    alloc: Global,
    given: &SizeTable<'_>,
    text: &'a [u8],
) -> Result<SizeTable<'a>, SizeFault>
    requires fits { length text.now ≤ longest }
    ensures answers { Answers (λ s. s) result (in_text (length text.now) (spec.sizes_of given.now text.now)) }
{
    let mut sizes = SizeTable::new(alloc);
    let mut at = 0;
    while at < text.len() {
        let byte = text[at];
        let (_, rest) = text.split_at(at + 1);
        if is_blank(byte) {
            at += 1;
        } else if byte == b'#' {
            let length = comment_len(rest);
            let (comment, _) = rest.split_at(length);
            declare(given, &mut sizes, comment, text.len(), text.len() - at)?;
            at += 1 + length;
        } else {
            return Ok(sizes);
        }
    }
    Ok(sizes)
}
