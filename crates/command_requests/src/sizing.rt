//! The sizes that the words of a call give.

ghost use Rattle.std.specs.Prelude.{◌≡◌, ◌++◌, ◌∷◌, ◌||◌, [], List, ℕ, IfOk, IfErr, MatchOption, OnOk};
ghost use Rattle.std.specs.HashSet.{contains_by};
ghost use Rattle.std.specs.Str.{bytes_eq};
ghost use Rattle.sized_texts.specs.declared.size.Size.{Size as SizeOf};
ghost use Rattle.sized_texts.specs.SizeWords as size_word;
ghost use Rattle.command_requests.specs.Given as spec;

use crate::SizeWord;
use crate::word::text_of;
use program_texts::Stop;
use sized_texts::{Size, name_of, read_size};
use sqlite_items::Items;
use std::alloc::{AllocError, Global};
use std::collections::HashSet;

// The name of the size that a word gives, if it gives one.
fn named<'a>(word: SizeWord<'a>) -> &'a [u8]
    ensures { result.now ≡ size_word.name_of (spec.word_text word.entry) }
{
    name_of(text_of(word))
}

// Whether one of the names is this one.
fn has_name(names: &HashSet<&[u8]>, name: &[u8]) -> bool
    ensures { result ≡ contains_by (λ k. bytes_eq name.now k.now) names.now }
{
    names.contains(name)
}

// Takes a name in.
fn take_name<'a>(names: &mut HashSet<&'a [u8]>, name: &'a [u8]) -> Result<(), AllocError>
    ensures { OnOk result ((q : List ℕ) → contains_by (λ k. bytes_eq q k.now) names.new
        ≡ (bytes_eq name.now q || contains_by (λ k. bytes_eq q k.now) names.old)) }
{
    let _added = names.insert(name)?;
    Ok(())
}

// The size that a word gives, if it gives one.
fn size_of(alloc: Global, word: SizeWord<'_>) -> Result<Option<Size>, AllocError>
    ensures { IfOk result (λ size. MatchOption size (spec.GivesNone word.entry) (spec.GivesSize word.entry)) }
{
    match word {
        SizeWord::Given(word) => read_size(alloc, word),
        SizeWord::Swept(word, value) => Ok(Some(Size {
            name: Items::from_slice(alloc, name_of(word))?,
            value,
        })),
    }
}

// The size of a word, of a name that none of these sizes has.
fn new_size<'a>(alloc: Global, names: &HashSet<&[u8]>, word: SizeWord<'a>) -> Result<Size, Stop<'a>>
    ensures size { IfOk result (λ s. (sizes : List SizeOf) → spec.AreNamesOf (λ q. contains_by (λ k. bytes_eq q k.now) names.now) sizes →
        spec.IsNewSize sizes word.entry s) }
    ensures refused { IfErr result (λ why. (sizes : List SizeOf) →
        spec.AreNamesOf (λ q. contains_by (λ k. bytes_eq q k.now) names.now) sizes → spec.IsWordRefused sizes word.entry why) }
{
    match size_of(alloc, word)? {
        None => Err(Stop::Number(text_of(word))),
        Some(size) => {
            if has_name(names, size.name.as_slice()) {
                Err(Stop::Number(text_of(word)))
            } else {
                Ok(size)
            }
        }
    }
}

// Puts a size behind others.
fn add_size(sizes: &mut Vec<Size>, size: Size) -> Result<(), AllocError>
    ensures { OnOk result (sizes.new.items ≡ sizes.old.items ++ size ∷ []) }
{
    sizes.push(size)?;
    Ok(())
}

/// The sizes of words, each of which is to give one of a name of its own. The first word that doesn't is refused (P1).
pub fn sizes_of<'a>(alloc: Global, words: &[SizeWord<'a>]) -> Result<Vec<Size>, Stop<'a>>
    ensures sizes { IfOk result (λ sizes. spec.AreSizesOf words.now sizes.items) }
    ensures refused { IfErr result (spec.IsOfSizes words.now) }
{
    let mut sizes = Vec::new(alloc);
    let mut names = HashSet::new(alloc);
    for word in words {
        let size = new_size(alloc, &names, *word)?;
        take_name(&mut names, named(*word))?;
        add_size(&mut sizes, size)?;
    }
    Ok(sizes)
}
