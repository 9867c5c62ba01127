//! From the word and the numbers of an instruction to the instruction.

ghost use Rattle.std.specs.Prelude.{◌≡◌, ◌++◌, MatchOption, List, ℕ};
ghost use Rattle.superstep_instructions.specs.declared.instr.Instr.{Instr};
ghost use Rattle.superstep_listing.specs.Cutting.{spaced};
ghost use Rattle.superstep_listing.specs.Decoding as decoding;
ghost use Rattle.superstep_instructions.specs.Limits.{IsInstr};
ghost use Rattle.superstep_listing.specs.Listing as spec;

use crate::operands::{first_word, numbers_behind};
use crate::spell::numbers;
use crate::template::template;
use superstep_instructions::Instr;

/// The number of operand k, and 0 where it is missing.
fn wide_at(numbers: &[i64], k: usize) -> i64
    ensures { result ≡ decoding.wide_at numbers.now k }
{
    if k < numbers.len() { numbers[k] } else { 0 }
}

/// The same where it has 16 bits, and else 0.
fn short_at(numbers: &[i64], k: usize) -> u16
    ensures { result ≡ decoding.short_at numbers.now k }
{
    let number = wide_at(numbers, k);
    if 0 <= number && number < 65_536 {
        number as u16
    } else {
        0
    }
}

/// The same where it has 32 bits, and else 0.
fn long_at(numbers: &[i64], k: usize) -> u32
    ensures { result ≡ decoding.long_at numbers.now k }
{
    let number = wide_at(numbers, k);
    if 0 <= number && number < 4_294_967_296 {
        number as u32
    } else {
        0
    }
}

/// Such an instruction with these numbers as operands, as far as they are there and have so many
/// bits.
fn candidate(template: Instr, n: &[i64]) -> Instr
    ensures value { result ≡ decoding.candidate_of template n.now }
    ensures word { spec.side_of result ++ spec.stem_of result ≡ spec.side_of template ++ spec.stem_of template }
{
    match template {
        Instr::Mark { .. } => Instr::Mark {
            line: long_at(n, 0),
        },
        Instr::Set { side, .. } => Instr::Set {
            side,
            destination: short_at(n, 0),
            value: wide_at(n, 1),
        },
        Instr::Copy { side, .. } => Instr::Copy {
            side,
            destination: short_at(n, 0),
            source: short_at(n, 1),
        },
        Instr::Negate { side, .. } => Instr::Negate {
            side,
            destination: short_at(n, 0),
            source: short_at(n, 1),
            position: long_at(n, 2),
        },
        Instr::Calculate {
            side,
            operation,
            ..
        } => Instr::Calculate {
            side,
            operation,
            destination: short_at(n, 0),
            left: short_at(n, 1),
            right: short_at(n, 2),
            position: long_at(n, 3),
        },
        Instr::Decide {
            side,
            operation,
            ..
        } => Instr::Decide {
            side,
            operation,
            destination: short_at(n, 0),
            left: short_at(n, 1),
            right: short_at(n, 2),
        },
        Instr::Not { side, .. } => Instr::Not {
            side,
            destination: short_at(n, 0),
            source: short_at(n, 1),
        },
        Instr::CopyUniform { .. } => Instr::CopyUniform {
            destination: short_at(n, 0),
            source: short_at(n, 1),
        },
        Instr::Index { .. } => Instr::Index {
            destination: short_at(n, 0),
        },
        Instr::Enter { .. } => Instr::Enter {
            low: short_at(n, 0),
            high: short_at(n, 1),
            position: long_at(n, 2),
        },
        Instr::Mask { .. } => Instr::Mask {
            source: short_at(n, 0),
        },
        Instr::Ask { side, .. } => Instr::Ask {
            side,
            destination: short_at(n, 0),
            entry: short_at(n, 1),
            subscript: short_at(n, 2),
            position: long_at(n, 3),
        },
        Instr::Put { side, .. } => Instr::Put {
            side,
            entry: short_at(n, 0),
            subscript: short_at(n, 1),
            value: short_at(n, 2),
            position: long_at(n, 3),
        },
        Instr::Vote { .. } => Instr::Vote {
            destination: short_at(n, 0),
        },
        Instr::Print { .. } => Instr::Print {
            source: short_at(n, 0),
        },
        Instr::Jump { .. } => Instr::Jump {
            target: short_at(n, 0),
        },
        Instr::JumpIfZero { .. } => Instr::JumpIfZero {
            source: short_at(n, 0),
            target: short_at(n, 1),
        },
        Instr::Leave | Instr::Flip | Instr::Unmask | Instr::Send | Instr::Reply | Instr::Halt =>
            template,
    }
}

/// The instruction of a word and its numbers.
pub(crate) fn body_of(text: &[u8]) -> Option<Instr>
    ensures value { MatchOption result
        ((i : Instr) → IsInstr i → text.now ≡ spec.side_of i ++ (spec.stem_of i ++ spaced (spec.numbers_of i)) → ⊥)
        (λ i. text.now ≡ spec.side_of i ++ (spec.stem_of i ++ spaced (spec.numbers_of i))) }
{
    let (word, behind) = first_word(text);
    let Some(blank) = template(word) else {
        return None;
    };
    let Some(found) = numbers_behind(behind) else {
        return None;
    };
    let instr = candidate(blank, found.as_slice());
    // Other numbers than those that were found: too few, too many, or one of too many bits.
    let (operands, count) = numbers(instr);
    if &operands[..count] != found.as_slice() {
        return None;
    }
    Some(instr)
}
