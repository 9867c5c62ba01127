//! The operands of instructions, as a program in C spells them.

ghost use Rattle.std.specs.Prelude.{◌≡◌, ◌≤◌, take};
ghost use Rattle.mpi_export.specs.Parts as spec;

use superstep_instructions::{Instr, Side};

/// An operand.
#[derive(Clone, Copy)]
pub(crate) enum Part {
    /// A position, a line, an entry, a target or a value.
    Number(i64),
    /// A uniform register.
    OfAll(u16),
    /// A private register that is read.
    OfEach(u16),
    /// A private register that gets a result.
    Into(u16),
}

fn read(side: Side, register: u16) -> Part
    ensures { result ≡ spec.read_of side register }
{
    match side {
        Side::Uniform => Part::OfAll(register),
        Side::Private => Part::OfEach(register),
    }
}

fn into(side: Side, register: u16) -> Part
    ensures { result ≡ spec.into_of side register }
{
    match side {
        Side::Uniform => Part::OfAll(register),
        Side::Private => Part::Into(register),
    }
}

/// The operands of an instruction in the order of the listing, and how many there are.
pub(crate) fn parts(instr: Instr) -> ([Part; 4], usize)
    ensures parts { take result.1 result.0 ≡ spec.parts_of instr }
    ensures few { result.1 ≤ 4 }
{
    let none = Part::Number(0);
    match instr {
        Instr::Mark { line } => ([Part::Number(line as i64), none, none, none], 1),
        Instr::Set {
            side,
            destination,
            value,
        } => (
            [into(side, destination), Part::Number(value), none, none],
            2,
        ),
        Instr::Copy {
            side,
            destination,
            source,
        }
        | Instr::Not {
            side,
            destination,
            source,
        } => ([into(side, destination), read(side, source), none, none], 2),
        Instr::Negate {
            side,
            destination,
            source,
            position,
        } => (
            [
                into(side, destination),
                read(side, source),
                Part::Number(position as i64),
                none,
            ],
            3,
        ),
        Instr::Calculate {
            side,
            destination,
            left,
            right,
            position,
            ..
        } => (
            [
                into(side, destination),
                read(side, left),
                read(side, right),
                Part::Number(position as i64),
            ],
            4,
        ),
        Instr::Decide {
            side,
            destination,
            left,
            right,
            ..
        } => (
            [
                into(side, destination),
                read(side, left),
                read(side, right),
                none,
            ],
            3,
        ),
        Instr::Ask {
            side,
            destination,
            entry,
            subscript,
            position,
        } => (
            [
                into(side, destination),
                Part::Number(entry as i64),
                read(side, subscript),
                Part::Number(position as i64),
            ],
            4,
        ),
        Instr::Put {
            side,
            entry,
            subscript,
            value,
            position,
        } => (
            [
                Part::Number(entry as i64),
                read(side, subscript),
                read(side, value),
                Part::Number(position as i64),
            ],
            4,
        ),
        Instr::CopyUniform {
            destination,
            source,
        } => (
            [Part::Into(destination), Part::OfAll(source), none, none],
            2,
        ),
        Instr::Index { destination } => ([Part::Into(destination), none, none, none], 1),
        Instr::Enter {
            low,
            high,
            position,
        } => (
            [
                Part::OfAll(low),
                Part::OfAll(high),
                Part::Number(position as i64),
                none,
            ],
            3,
        ),
        Instr::Mask { source } => ([Part::OfEach(source), none, none, none], 1),
        Instr::Vote { destination } => ([Part::OfAll(destination), none, none, none], 1),
        Instr::Print { source } => ([Part::OfAll(source), none, none, none], 1),
        Instr::Jump { target } => ([Part::Number(target as i64), none, none, none], 1),
        Instr::JumpIfZero { source, target } => (
            [Part::OfAll(source), Part::Number(target as i64), none, none],
            2,
        ),
        _ => ([none, none, none, none], 0),
    }
}
