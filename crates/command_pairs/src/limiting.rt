//! What the limits of a comparison come to.

ghost use Rattle.std.specs.Prelude.{IfOk, IfErr, List, ℕ, Err};
ghost use Rattle.std.specs.Option.{option_map};
ghost use Rattle.pram_tokens.specs.Plain.{IsPlain};
ghost use Rattle.sized_texts.specs.Faults.{Answers};
ghost use Rattle.sized_texts.specs.Formulas as formulas;
ghost use Rattle.sized_texts.specs.declared.size.Size.{Size};
ghost use Rattle.command_requests.specs.Given.{AreSizesOf};
ghost use Rattle.command_requests.specs.declared.request.SizeWord.{SizeWord as SizeWordOf};
ghost use Rattle.command_pairs.specs.Limits as spec;

use command_requests::{PairWords, SizeWord, sizes_of};
use comparing::Limits;
use diagnoses::Halted;
use program_texts::{Refusal, Stop};
use sized_texts::{SizeFault, number_by};
use std::alloc::Global;

// Why an expression has no number by the sizes of a text.
fn stop_of_limit<'a>(fault: SizeFault, word: &'a str) -> Stop<'a>
    ensures { (words : List SizeWordOf) (text : List ℕ) (sizes : List Size) → AreSizesOf words sizes →
        Answers {X = ℕ} (λ n. n) (Err fault) (formulas.number_by sizes text word.now) → spec.HasNoNumber words text word.now result }
{
    match fault {
        SizeFault::BadSize(_, _) => Stop::Number(word),
        SizeFault::TooLong => Stop::Number(word),
        SizeFault::NotDeclared(_) => Stop::Number(word),
        SizeFault::OutOfMemory => Stop::Refused(Refusal::OutOfMemory),
    }
}

// What a limit comes to by the sizes of a text, and of these words.
fn number_of<'a>(
    alloc: Global,
    words: &[SizeWord<'a>],
    text: &[u8],
    word: &'a str,
) -> Result<u64, Stop<'a>>
    requires plain { IsPlain text.now }
    ensures number { IfOk result (spec.IsNumberBy words.now text.now word.now) }
    ensures refused { IfErr result (spec.IsUnlimited words.now text.now word.now) }
{
    let sizes = sizes_of(alloc, words)?;
    match number_by(alloc, text, &sizes, word.as_bytes()) {
        Ok(number) => Ok(number),
        Err(fault) => Err(stop_of_limit(fault, word)),
    }
}

// The same of a limit that may be none.
fn limit_of<'a>(
    alloc: Global,
    words: &[SizeWord<'a>],
    text: &[u8],
    limit: Option<&'a str>,
) -> Result<Option<u64>, Stop<'a>>
    requires plain { IsPlain text.now }
    ensures limit { IfOk result (spec.IsLimitBy words.now text.now (option_map (λ e. e.now) limit.entry)) }
    ensures refused { IfErr result (spec.HasNoLimit words.now text.now (option_map (λ e. e.now) limit.entry)) }
{
    match limit {
        None => Ok(None),
        Some(word) => Ok(Some(number_of(alloc, words, text, word)?)),
    }
}

fn both<'a>(alloc: Global, words: &PairWords<'a>, text: &[u8]) -> Result<Limits, Stop<'a>>
    requires plain { IsPlain text.now }
    ensures limits { IfOk result (spec.AreLimits words.now text.now) }
    ensures refused { IfErr result (spec.HasNoLimits words.now text.now) }
{
    let time = limit_of(alloc, &words.second.sizes, text, words.most_time)?;
    let work = limit_of(alloc, &words.second.sizes, text, words.most_work)?;
    Ok(Limits {
        time,
        work,
        stops: words.is_graded,
    })
}

/// The limits of the second program, which has this text.
pub(crate) fn limits_of<'a>(
    alloc: Global,
    words: &PairWords<'a>,
    text: &[u8],
) -> Result<Limits, Halted<'a>>
    requires plain { IsPlain text.now }
    ensures limits { IfOk result (spec.AreLimits words.now text.now) }
    ensures refused { IfErr result (spec.HaveNoLimits words.now text.now) }
{
    match both(alloc, words, text) {
        Ok(limits) => Ok(limits),
        Err(stop) => Err(Halted::from(stop)),
    }
}

/// The most processors that the second program may declare, which has this text.
pub(crate) fn most_procs_of<'a>(
    alloc: Global,
    words: &PairWords<'a>,
    text: &[u8],
) -> Result<Option<u64>, Halted<'a>>
    requires plain { IsPlain text.now }
    ensures most { IfOk result (spec.AreMostProcs words.now text.now) }
    ensures refused { IfErr result (spec.HasNoMostProcs words.now text.now) }
{
    match limit_of(alloc, &words.second.sizes, text, words.most_procs) {
        Ok(most) => Ok(most),
        Err(stop) => Err(Halted::from(stop)),
    }
}
