//! What a sweep goes over, as a word of a command line: `NAME=SIZES`.

ghost use Rattle.std.specs.Prelude.{◌≡◌, IfOk};
ghost use Rattle.pram_model.specs.Names.{are_words};
ghost use Rattle.sized_texts.specs.Sweeps as spec;

use crate::front::goes_on;
use crate::progression::progression;
use crate::size_list::listed;
use crate::size_range::range_of;
use sqlite_items::Items;
use std::alloc::{AllocError, Global};

/// A name, and the sizes for which it stands in turn.
#[derive(Drop)]
pub struct Sweep {
    pub name: Items<u8>,
    pub sizes: Vec<u64>,
}

// Whether there are letters, digits and `_` alone.
fn has_words(text: &[u8]) -> bool
    ensures { result ≡ are_words text.now }
{
    for b in text {
        if !goes_on(*b) {
            return false;
        }
    }
    true
}

// Whether there are letters, digits and `_` alone, one at least.
fn is_sweep_name(text: &[u8]) -> bool
    ensures { result ≡ spec.are_some_words text.now }
{
    match text {
        [] => false,
        [_, ..] => has_words(text),
    }
}

// The sizes of a text, at most 1,000.
fn sizes_of(alloc: Global, text: &str) -> Result<Option<Vec<u64>>, AllocError>
    ensures { IfOk result (spec.AreSizesOf text.now) }
{
    match range_of(text.as_bytes()) {
        Some(range) => progression(alloc, range),
        None => listed(alloc, text),
    }
}

/// What a sweep goes over, by a word `NAME=SIZES`, as of a command line: NAME is one or more letters, digits and `_`. SIZES is one or more
/// numbers with commas between them, as `4,8,16`; or `A..B*F` for A, A * F, A * F * F and so on, or `A..B+S` for A, A + S, A + S + S and
/// so on, as long as they are at most B. There A is at most B, F at least 2 and then A at least 1, S at least 1. There are at most 1,000
/// sizes, and each number is at most 9223372036854775807. `None`: the word has another form. The error is that memory was refused.
pub fn read_sweep(alloc: Global, word: &str) -> Result<Option<Sweep>, AllocError>
    // The answer is a sweep exactly where the word is one: a name, `=`, and numbers or a range, whose sizes are just
    // those, 1,000 at most.
    ensures read { IfOk result (spec.IsSweepOf word.now) }
{
    let Some((name, text)) = word.split_once('=') else {
        return Ok(None);
    };
    if !is_sweep_name(name.as_bytes()) {
        return Ok(None);
    }
    match sizes_of(alloc, text)? {
        None => Ok(None),
        Some(sizes) => Ok(Some(Sweep {
            name: Items::from_slice(alloc, name.as_bytes())?,
            sizes,
        })),
    }
}
