//! A name by its word, and the name that is nearest to a word.

ghost use Rattle.std.specs.Prelude.{◌≡◌, ◌&&◌, IfOk, map, nat_le, nat_lt};
ghost use Rattle.std.specs.Option.{option_map};
ghost use Rattle.help.specs.InScope as spec;
ghost use Rattle.help.specs.Nearness as near;
ghost use Rattle.pram_model.specs.Names.{same_text};

use crate::known::Known;
use std::alloc::{AllocError, Global};
use strsim::generic_levenshtein;

fn is_same(a: &[u8], b: &[u8]) -> bool
    ensures { result ≡ same_text a.now b.now }
{
    a == b
}

/// The first of some names that is spelled so.
pub fn find<'a>(names: &[Known<'a>], word: &[u8]) -> Option<Known<'a>>
    // It is the first of the names that is spelled so, and none where none is.
    ensures { option_map spec.known_is result ≡ near.named (map spec.known_is names.now) word.now }
{
    for k in names {
        if is_same(k.name, word) {
            return Some(*k);
        }
    }
    None
}

// The most edits that a name may be away from a word: a third of the longer one's length, and at least one.
fn most_edits(word: &[u8], name: &[u8]) -> usize
    ensures { result ≡ near.most_edits word.now name.now }
{
    (word.len().max(name.len()) / 3).max(1)
}

/// Names of more letters are not compared.
const MOST_LETTERS: usize = 64;

// Whether so many edits lead from a word to a name that is near enough.
fn is_near(word: &[u8], name: &[u8], edits: usize) -> bool
    requires { edits ≡ near.edits word.now name.now }
    ensures { result ≡ (nat_le edits (near.most_edits word.now name.now) && nat_lt edits (near.longer word.now name.now)) }
{
    edits <= most_edits(word, name) && edits < word.len().max(name.len())
}

// The nearer of the two: the one so far, unless the other is near enough and nearer.
fn nearer<'a>(
    alloc: Global,
    word: &[u8],
    so_far: Option<Known<'a>>,
    other: Known<'a>,
) -> Result<Option<Known<'a>>, AllocError>
    ensures { IfOk result (λ k. option_map spec.known_is k
        ≡ near.nearer word.now (option_map spec.known_is so_far.entry) (spec.known_is other.entry)) }
{
    if word.len().max(other.name.len()) > MOST_LETTERS {
        return Ok(so_far);
    }
    let edits = generic_levenshtein(alloc, word, other.name)?;
    if !is_near(word, other.name, edits) {
        return Ok(so_far);
    }
    match so_far {
        None => Ok(Some(other)),
        Some(best) => {
            if edits < generic_levenshtein(alloc, word, best.name)? {
                Ok(Some(other))
            } else {
                Ok(Some(best))
            }
        }
    }
}

/// The name that is nearest to a word, by the edits that lead from one to the other: at most a third of the longer one's length, or one,
/// and fewer than that length. Words and names of more than 64 letters are not compared. Of names that are equally near it is the first.
pub fn nearest<'a>(
    alloc: Global,
    names: &[Known<'a>],
    word: &[u8],
) -> Result<Option<Known<'a>>, AllocError>
    // It is the name that is near to the word by its Levenshtein distance, and nearest of all, the first of equally
    // near ones.
    ensures { IfOk result (λ k. option_map spec.known_is k ≡ near.nearest (map spec.known_is names.now) word.now) }
{
    let mut best = None;
    for k in names {
        best = nearer(alloc, word, best, *k)?;
    }
    Ok(best)
}
