//! The words and numbers of instructions, as in a listing.

ghost use Rattle.std.specs.Prelude.{◌≡◌, ◌≤◌, take};
ghost use Rattle.superstep_listing.specs.Listing as spec;

use superstep_instructions::{Arithmetic, Instr, Side, Truth};

/// The letter of a side.
fn side_text(side: Side) -> &'static [u8]
    ensures text { result.now ≡ spec.side_word side }
{
    match side {
        Side::Uniform => b"u",
        Side::Private => b"p",
    }
}

fn arithmetic_text(operation: Arithmetic) -> &'static [u8]
    ensures text { result.now ≡ spec.arithmetic_word operation }
{
    match operation {
        Arithmetic::Add => b"add",
        Arithmetic::Subtract => b"sub",
        Arithmetic::Multiply => b"mul",
        Arithmetic::Divide => b"div",
        Arithmetic::Remainder => b"mod",
    }
}

fn truth_text(operation: Truth) -> &'static [u8]
    ensures text { result.now ≡ spec.truth_word operation }
{
    match operation {
        Truth::Equal => b"eq",
        Truth::Less => b"lt",
        Truth::AtMost => b"le",
        Truth::And => b"and",
        Truth::Or => b"or",
    }
}

/// The letter of an instruction's side, and nothing where it has none.
pub fn letter(instr: Instr) -> &'static [u8]
    ensures text { result.now ≡ spec.side_of instr }
{
    match instr {
        Instr::Set { side, .. }
        | Instr::Copy { side, .. }
        | Instr::Negate { side, .. }
        | Instr::Calculate { side, .. }
        | Instr::Decide { side, .. }
        | Instr::Not { side, .. }
        | Instr::Ask { side, .. }
        | Instr::Put { side, .. } => side_text(side),
        _ => b"",
    }
}

/// The word of an instruction without that letter.
pub fn stem(instr: Instr) -> &'static [u8]
    ensures text { result.now ≡ spec.stem_of instr }
{
    match instr {
        Instr::Mark { .. } => b"mark",
        Instr::Set { .. } => b"set",
        Instr::Copy { .. } => b"copy",
        Instr::Negate { .. } => b"neg",
        Instr::Calculate { operation, .. } => arithmetic_text(operation),
        Instr::Decide { operation, .. } => truth_text(operation),
        Instr::Not { .. } => b"not",
        Instr::CopyUniform { .. } => b"pfrom",
        Instr::Index { .. } => b"pindex",
        Instr::Enter { .. } => b"enter",
        Instr::Leave => b"leave",
        Instr::Mask { .. } => b"mask",
        Instr::Flip => b"flip",
        Instr::Unmask => b"unmask",
        Instr::Ask { .. } => b"ask",
        Instr::Put { .. } => b"put",
        Instr::Send => b"send",
        Instr::Reply => b"reply",
        Instr::Vote { .. } => b"vote",
        Instr::Print { .. } => b"print",
        Instr::Jump { .. } => b"jump",
        Instr::JumpIfZero { .. } => b"jzero",
        Instr::Halt => b"halt",
    }
}

/// The numbers of an instruction's operands, and how many there are.
pub fn numbers(instr: Instr) -> ([i64; 4], usize)
    ensures numbers { take result.1 result.0 ≡ spec.numbers_of instr }
    ensures few { result.1 ≤ 4 }
{
    match instr {
        Instr::Mark { line } => ([line as i64, 0, 0, 0], 1),
        Instr::Set {
            destination,
            value,
            ..
        } => ([destination as i64, value, 0, 0], 2),
        Instr::Copy {
            destination,
            source,
            ..
        }
        | Instr::Not {
            destination,
            source,
            ..
        }
        | Instr::CopyUniform {
            destination,
            source,
        } => { ([destination as i64, source as i64, 0, 0], 2) }
        Instr::Negate {
            destination,
            source,
            position,
            ..
        } => { ([destination as i64, source as i64, position as i64, 0], 3) }
        Instr::Calculate {
            destination,
            left,
            right,
            position,
            ..
        } => (
            [
                destination as i64,
                left as i64,
                right as i64,
                position as i64,
            ],
            4,
        ),
        Instr::Decide {
            destination,
            left,
            right,
            ..
        } => { ([destination as i64, left as i64, right as i64, 0], 3) }
        Instr::Enter {
            low,
            high,
            position,
        } => ([low as i64, high as i64, position as i64, 0], 3),
        Instr::Ask {
            destination,
            entry,
            subscript,
            position,
            ..
        } => (
            [
                destination as i64,
                entry as i64,
                subscript as i64,
                position as i64,
            ],
            4,
        ),
        Instr::Put {
            entry,
            subscript,
            value,
            position,
            ..
        } => (
            [
                entry as i64,
                subscript as i64,
                value as i64,
                position as i64,
            ],
            4,
        ),
        Instr::Index { destination } | Instr::Vote { destination } => (
            [destination as i64, 0, 0, 0],
            1,
        ),
        Instr::Mask { source } | Instr::Print { source } => ([source as i64, 0, 0, 0], 1),
        Instr::Jump { target } => ([target as i64, 0, 0, 0], 1),
        Instr::JumpIfZero { source, target } => ([source as i64, target as i64, 0, 0], 2),
        Instr::Leave | Instr::Flip | Instr::Unmask | Instr::Send | Instr::Reply | Instr::Halt => {
            ([0, 0, 0, 0], 0)
        }
    }
}
