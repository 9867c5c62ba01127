//! Reading a listing from the numbers of registers on.

ghost use Rattle.std.specs.Prelude.{◌≡◌, ◌≤◌, ◌++◌, length, IfOk, IfErr};
ghost use Rattle.std.specs.List.{AllByRecursion};
ghost use Rattle.superstep_instructions.specs.Limits.{IsInstr, most_instructions, most_registers};
ghost use Rattle.superstep_listing.specs.Listing.{ended, instr_lines, size_lines};
ghost use Rattle.superstep_listing.specs.Reading.{AreInstrs, AreRest, IsReadError};

use crate::error::ReadError;
use crate::lines::{next_field, next_instr};
use std::alloc::Global;
use superstep_instructions::Instr;

/// No code has more registers of a side, or more instructions.
const MOST: u32 = 65_536;

/// What a listing says behind its declarations.
#[derive(Drop)]
pub(crate) struct Rest {
    pub(crate) uniform: u32,
    pub(crate) private: u32,
    pub(crate) instructions: Vec<Instr>,
}

/// So many instructions, and what stands behind them.
fn instrs_of(alloc: Global, text: &[u8], count: u32) -> Result<(Vec<Instr>, &[u8]), ReadError>
    requires few { count ≤ most_instructions }
    ensures counted { IfOk result (λ x. length x.0.items ≡ count) }
    ensures fit { IfOk result (λ x. AllByRecursion IsInstr x.0.items) }
    ensures whole { IfOk result (λ x. text.now ≡ ended (instr_lines 0 x.0.items) ++ x.1.now) }
    ensures wrong { IfErr result (λ e. IsReadError (AreInstrs count) text.now e) }
{
    let mut found = Vec::new(alloc);
    let mut rest = text;
    for place in 0..count {
        let Some((instr, behind)) = next_instr(rest, place) else {
            return Err(ReadError::Bad(rest.len()));
        };
        instr.operands_fit();
        found.push(instr)?;
        rest = behind;
    }
    Ok((found, rest))
}

/// The numbers of registers and the instructions of a text that ends behind them.
pub(crate) fn rest_of(alloc: Global, text: &[u8]) -> Result<Rest, ReadError>
    ensures few_uniform { IfOk result (λ r. r.uniform ≤ most_registers) }
    ensures few_private { IfOk result (λ r. r.private ≤ most_registers) }
    ensures few { IfOk result (λ r. length r.instructions.items ≤ most_instructions) }
    ensures fit { IfOk result (λ r. AllByRecursion IsInstr r.instructions.items) }
    ensures whole { IfOk result (λ r. text.now
        ≡ ended (size_lines r.uniform r.private (length r.instructions.items) ++ instr_lines 0 r.instructions.items)) }
    ensures wrong { IfErr result (λ e. IsReadError AreRest text.now e) }
{
    let Some((uniform, behind)) = next_field(text, b"uniform", 0, MOST) else {
        return Err(ReadError::Bad(text.len()));
    };
    let Some((private, body)) = next_field(behind, b"private", 0, MOST) else {
        return Err(ReadError::Bad(behind.len()));
    };
    let Some((count, lines)) = next_field(body, b"code", 0, MOST) else {
        return Err(ReadError::Bad(body.len()));
    };
    let (instructions, end) = match instrs_of(alloc, lines, count) {
        Ok(found) => found,
        Err(fault) => return Err(fault),
    };
    if !end.is_empty() {
        return Err(ReadError::Bad(end.len()));
    }
    Ok(Rest {
        uniform,
        private,
        instructions,
    })
}
