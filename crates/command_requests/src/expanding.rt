//! What the text of a program comes to by its sizes.

ghost use Rattle.std.specs.Prelude.{◌≡◌, ◌<◌, ℕ, List, IfOk, IfErr, None, Err, length};
ghost use Rattle.std.specs.Option.{ForSome};
ghost use Rattle.pram_tokens.specs.Plain.{IsPlain};
ghost use Rattle.sized_texts.specs.Expansion.{expansion};
ghost use Rattle.sized_texts.specs.Faults.{Answers, shown};
ghost use Rattle.sized_texts.specs.declared.fault.SizeFault.TheVariants.{NotDeclared};
ghost use Rattle.sized_texts.specs.declared.size.Size.{Size as SizeOf};
ghost use Rattle.command_requests.specs.Given.{AreSizesOf};
ghost use Rattle.command_requests.specs.Expanded as spec;

use crate::SizeWord;
use crate::word::text_of;
use pram_tokens::{LONGEST, first_other};
use pram_trees::TextFault;
use program_texts::{Refusal, Stop};
use sized_texts::{Expanded, Size, SizeFault, expand};
use std::alloc::Global;

// What is wrong with a text that isn't plain.
fn fault_of_bytes(text: &[u8]) -> Option<TextFault>
    ensures plain { result ≡ None → IsPlain text.now }
    ensures fault { ForSome result (spec.IsNotPlain text.now) }
{
    if text.len() > LONGEST {
        return Some(TextFault::TextTooLong);
    }
    match first_other(text) {
        Some(at) => Some(TextFault::NotAscii(at as u32)),
        None => None,
    }
}

// Why a text has no expansion by the sizes of these words.
fn stop_of_sizes<'a>(fault: SizeFault, words: &[SizeWord<'a>]) -> Stop<'a>
    requires numbered { (number : ℕ) → fault ≡ NotDeclared number → number < length words.now }
    ensures told { (sizes : List SizeOf) (text : List ℕ) → Answers shown (Err fault) (expansion sizes text) →
        spec.IsUnexpanded words.now sizes text result }
{
    match fault {
        SizeFault::BadSize(at, reason) => Stop::BadSize(at, reason),
        SizeFault::TooLong => Stop::Refused(Refusal::Text(TextFault::TextTooLong)),
        SizeFault::NotDeclared(number) => Stop::Number(text_of(words[number])),
        SizeFault::OutOfMemory => Stop::Refused(Refusal::OutOfMemory),
    }
}

/// What a text comes to by the sizes that these words give.
///
/// A text of more than 1,048,576 bytes is E2, then the first byte of 128 or more E1. Then come the first bad size line (E19), the first
/// word of a size that the text doesn't declare (P1), the first bad place of an expression (E19), and an expansion that is too long (E2).
pub fn expanded<'a>(
    alloc: Global,
    text: &[u8],
    words: &[SizeWord<'a>],
    sizes: &[Size],
) -> Result<Expanded, Stop<'a>>
    requires given { AreSizesOf words.now sizes.now }
    ensures expanded { IfOk result (λ e. spec.IsExpandedBy words.now text.now (shown e)) }
    ensures refused { IfErr result (spec.HasNoExpansion words.now text.now) }
{
    if let Some(fault) = fault_of_bytes(text) {
        return Err(Stop::Refused(Refusal::Text(fault)));
    }
    match expand(alloc, text, sizes) {
        Ok(expanded) => Ok(expanded),
        Err(fault) => Err(stop_of_sizes(fault, words)),
    }
}
