//! The lines of instructions.

ghost use Rattle.std.specs.Prelude.{◌≡◌, MatchOption};
ghost use Rattle.superstep_instructions.specs.declared.instr.Instr.{Instr};
ghost use Rattle.superstep_instructions.specs.Limits.{IsInstr};
ghost use Rattle.superstep_listing.specs.Listing as spec;

use crate::candidate::body_of;
use crate::cut::cut;
use crate::numeral::number;
use superstep_instructions::Instr;

/// The instruction of the line of that number.
pub(crate) fn instr_of(bytes: &[u8], place: u32) -> Option<Instr>
    ensures value { MatchOption result
        ((i : Instr) → IsInstr i → bytes.now ≡ spec.line (spec.instr_words place i) → ⊥)
        (λ i. bytes.now ≡ spec.line (spec.instr_words place i)) }
{
    let Some((count, body)) = cut(bytes, b' ') else {
        return None;
    };
    let Some(found) = number(count) else {
        return None;
    };
    if found != place as i64 {
        return None;
    }
    match body_of(body) {
        Some(instr) => Some(instr),
        None => None,
    }
}
