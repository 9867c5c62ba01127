//! What is compared of two programs.

ghost use Rattle.std.specs.Prelude.{◌≡◌, ◌⊎◌, ◌++◌, ◌<◌, [], Some, IfOk, IfErr, OnOk, length, slice_get};
ghost use Rattle.std.specs.List.{cons_option, filter_map, find};
ghost use Rattle.std.specs.Option.{option_map};
ghost use Rattle.memory_texts.specs.Chosen.{parts};
ghost use Rattle.pram_tokens.specs.Plain.{IsPlain};
ghost use Rattle.pram_model.specs.Layout.{SharedEntry};
ghost use Rattle.command_pairs.specs.Limits.{HaveNoLimits};
ghost use Rattle.command_pairs.specs.Pairs as spec;

use crate::limiting::limits_of;
use command_requests::PairWords;
use comparing::{CommonRange, Compared, common_ranges, named_range, whole_ranges};
use diagnoses::Halted;
use memory_texts::{Choice, is_chosen};
use pram_trees::Layout;
use program_texts::{Refusal, Stop};
use std::alloc::{AllocError, Global};

// Whether a name is neither that of the output nor of a declaration that both have.
fn is_uncommon(first: &Layout, second: &Layout, name: &str) -> bool
    ensures { result ≡ spec.is_uncommon first.now second.now name.now }
{
    name != "output" && named_range(first, second, name.as_bytes()).is_none()
}

fn uncommon_part<'a>(first: &Layout, second: &Layout, word: &'a str) -> Option<&'a str>
    ensures { option_map (λ part. part.now) result ≡ find (spec.is_uncommon first.now second.now) (parts word.now) }
{
    for part in word.split(',') {
        if is_uncommon(first, second, part) {
            return Some(part);
        }
    }
    None
}

// The first name of what is to be compared that is neither.
fn uncommon_name<'a>(first: &Layout, second: &Layout, only: Choice<'a>) -> Option<&'a str>
    ensures { option_map (λ part. part.now) result ≡ spec.uncommon_name only.entry first.now second.now }
{
    match only {
        Choice::All | Choice::Nothing => None,
        Choice::Named(word) => uncommon_part(first, second, word),
    }
}

// Behind other cells the cells of a declaration, if there is one.
fn push_some(ranges: &mut Vec<CommonRange>, range: Option<CommonRange>) -> Result<(), AllocError>
    ensures { OnOk result (ranges.new.items ≡ ranges.old.items ++ cons_option range []) }
{
    if let Some(range) = range {
        ranges.push(range)?;
    }
    Ok(())
}

// The cells of a declaration of the first program, if it is chosen and both have it.
fn range_named(first: &Layout, second: &Layout, only: Choice<'_>, i: usize) -> Option<CommonRange>
    requires { i < length first.now }
    ensures { (e : SharedEntry) → slice_get first.now i ≡ Some e → result ≡ spec.range_named only.entry first.now second.now e }
{
    let name = first.name(i);
    if is_chosen(only, name) {
        named_range(first, second, name)
    } else {
        None
    }
}

// The cells of the declarations that are chosen, in the order of the first program.
fn ranges_named(
    alloc: Global,
    first: &Layout,
    second: &Layout,
    only: Choice<'_>,
) -> Result<Vec<CommonRange>, AllocError>
    ensures { IfOk result (λ ranges. ranges.items ≡ filter_map (spec.range_named only.entry first.now second.now) first.now) }
{
    let mut ranges = Vec::new(alloc);
    for i in 0..first.len() {
        push_some(&mut ranges, range_named(first, second, only, i))?;
    }
    Ok(ranges)
}

// The cells of all declarations.
fn all_ranges(
    alloc: Global,
    first: &Layout,
    second: &Layout,
    is_graded: bool,
) -> Result<Vec<CommonRange>, AllocError>
    ensures { IfOk result (λ ranges. ranges.items ≡ spec.all_ranges is_graded first.now second.now) }
{
    if is_graded {
        whole_ranges(alloc, first, second)
    } else {
        common_ranges(alloc, first, second)
    }
}

// The cells that are compared.
fn ranges_of(
    alloc: Global,
    first: &Layout,
    second: &Layout,
    only: Choice<'_>,
    is_graded: bool,
) -> Result<Vec<CommonRange>, AllocError>
    ensures { IfOk result (λ ranges. ranges.items ≡ spec.ranges_of only.entry is_graded first.now second.now) }
{
    match only {
        Choice::All => all_ranges(alloc, first, second, is_graded),
        Choice::Nothing => Ok(Vec::new(alloc)),
        Choice::Named(_) => ranges_named(alloc, first, second, only),
    }
}

/// What of the runs is compared, and the limits of the second, whose program has this text.
pub(crate) fn compared_of<'a>(
    alloc: Global,
    words: &PairWords<'a>,
    first: &Layout,
    second: &Layout,
    text: &[u8],
) -> Result<Compared, Halted<'a>>
    requires plain { IsPlain text.now }
    ensures compared { IfOk result (spec.IsCompared words.now first.now second.now text.now) }
    ensures refused { IfErr result (λ h. spec.IsUncommonIn words.now first.now second.now h.stop h.about
        ⊎ HaveNoLimits words.now text.now h) }
{
    if let Some(name) = uncommon_name(first, second, words.only) {
        return Err(Halted::from(Stop::Number(name)));
    }
    let Ok(ranges) = ranges_of(alloc, first, second, words.only, words.is_graded) else {
        return Err(Halted::from(Stop::Refused(Refusal::OutOfMemory)));
    };
    let limits = limits_of(alloc, words, text)?;
    Ok(Compared {
        output: is_chosen(words.only, b"output"),
        ranges,
        limits,
    })
}
