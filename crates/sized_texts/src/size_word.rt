//! Sizes as words of a command line: `NAME=VALUE`.

ghost use Rattle.std.specs.Prelude.{◌≡◌, IfOk};
ghost use Rattle.sized_texts.specs.SizeWords as spec;

use crate::front::{number, word_len};
use crate::size::Size;
use sqlite_items::Items;
use std::alloc::{AllocError, Global};

/// The number of a text that is digits alone, one at least.
pub(crate) fn digits_value(text: &[u8]) -> Option<u64>
    ensures { result ≡ spec.digits_value text.now }
{
    match text {
        [] => None,
        [_, ..] => number(text).ok(),
    }
}

// The number behind the `=` that a text begins with.
fn equals_value(text: &[u8]) -> Option<u64>
    ensures { result ≡ spec.equals_value text.now }
{
    match text {
        [] => None,
        [b, digits @ ..] => {
            if *b == b'=' {
                digits_value(digits)
            } else {
                None
            }
        }
    }
}

// The value of a word whose name is that, before the rest of it.
fn value_by(name: &[u8], rest: &[u8]) -> Option<u64>
    ensures { result ≡ spec.value_by name.now rest.now }
{
    match name {
        [] => None,
        [_, ..] => equals_value(rest),
    }
}

/// The name of a word, and the rest of it.
pub(crate) fn split_name(word: &[u8]) -> (&[u8], &[u8])
    ensures name { result.0.now ≡ spec.name_of word.now }
    ensures rest { result.1.now ≡ spec.rest_of word.now }
{
    word.split_at(word_len(word))
}

/// The name with which a word begins: its first letters, digits and `_`.
pub fn name_of(word: &str) -> &[u8]
    ensures { result.now ≡ spec.name_of word.now }
{
    split_name(word.as_bytes()).0
}

/// The size of a word `NAME=VALUE`, as of a command line: NAME is one or more letters, digits and `_`, and VALUE one or more digits of a
/// number up to 9223372036854775807. `None`: the word has another form. The error is that memory was refused.
pub fn read_size(alloc: Global, word: &str) -> Result<Option<Size>, AllocError>
    // The answer is a size exactly where the word is one: a name, `=`, and digits of a number up to
    // 9223372036854775807, which is its value.
    ensures read { IfOk result (spec.IsSizeOf word.now) }
{
    let (name, rest) = split_name(word.as_bytes());
    match value_by(name, rest) {
        None => Ok(None),
        Some(value) => Ok(Some(Size {
            name: Items::from_slice(alloc, name)?,
            value,
        })),
    }
}
