//! Which instructions are left out: a guess, mended where the other code would read what isn't there.

use crate::certificate::{Constants, Known, item, place};
use crate::flowing::{Alterations, Flow, flag};
use crate::numbers::{is_side, place_among, short};
use crate::rows::result_of;
use std::alloc::{AllocError, Global};
use superstep_instructions::{Instr, Side};

// The side and the register of the result of an instruction, if it has one.
fn result(instr: Instr) -> Option<(Side, u16)> {
    match result_of(Side::Uniform, instr) {
        Some(destination) => Some((Side::Uniform, destination)),
        None => match result_of(Side::Private, instr) {
            Some(destination) => Some((Side::Private, destination)),
            None => None,
        },
    }
}

// The register into which an instruction computes by itself.
fn own(instr: Instr) -> u16 {
    match result(instr) {
        Some((_, destination)) => destination,
        None => 0,
    }
}

// The register into which the instruction behind a place copies the result of the one there.
fn copied_behind(instructions: &[Instr], at: usize) -> Option<u16> {
    let instr = instructions.get(at).copied()?;
    let (result_side, result) = result(instr)?;
    match instructions.get(at.saturating_add(1)).copied() {
        Some(
            Instr::Copy {
                side,
                destination,
                source,
            },
        ) if is_side(side, result_side) && source == result && destination != result => {
            Some(destination)
        }
        _ => None,
    }
}

// The register of a constant, if one has that number.
fn register_of(constants: &Constants, side: Side, number: i64) -> Option<u16> {
    let (first, place) = match side {
        Side::Uniform => (
            constants.first_uniform,
            place_among(&constants.uniform, number),
        ),
        Side::Private => (
            constants.first_private,
            place_among(&constants.private, number),
        ),
    };
    match place {
        Some(k) if k < 65536 => Some(short(first.saturating_add(k as u32))),
        _ => None,
    }
}

// Whether a register is one of a constant.
fn is_constant(constants: &Constants, side: Side, register: u16) -> bool {
    match side {
        Side::Uniform => register as u32 >= constants.first_uniform,
        Side::Private => register as u32 >= constants.first_private,
    }
}

// How an instruction is altered at first: a copy of the result before it is left out, and so is a number that has a register.
fn first_alteration(
    instructions: &[Instr],
    constants: &Constants,
    at: usize,
    instr: Instr,
) -> (bool, u16) {
    if at > 0 && copied_behind(instructions, at - 1).is_some() {
        return (true, own(instr));
    }
    if let Some(into) = copied_behind(instructions, at) {
        return (false, into);
    }
    match instr {
        Instr::Set {
            side,
            destination,
            value,
        } if !is_constant(constants, side, destination) => {
            match register_of(constants, side, value) {
                Some(register) => (true, register),
                None => (false, destination),
            }
        }
        _ => (false, own(instr)),
    }
}

/// How instructions are altered at first.
pub(crate) fn first_alterations(
    alloc: Global,
    instructions: &[Instr],
    constants: &Constants,
) -> Result<Alterations, AllocError> {
    let mut without = Vec::new(alloc);
    let mut into = Vec::new(alloc);
    for at in 0..instructions.len() {
        let (left_out, register) = first_alteration(instructions, constants, at, instructions[at]);
        without.push(left_out)?;
        into.push(register)?;
    }
    Ok(Alterations { without, into })
}

/// No instruction is altered but that these are left out.
pub(crate) fn alterations_without(
    alloc: Global,
    instructions: &[Instr],
    constants: &Constants,
) -> Result<Alterations, AllocError> {
    let mut without = Vec::new(alloc);
    let mut into = Vec::new(alloc);
    for at in 0..instructions.len() {
        let instr = instructions[at];
        let left_out = match instr {
            Instr::Set {
                side,
                destination,
                ..
            } => is_constant(constants, side, destination),
            _ => false,
        };
        without.push(left_out)?;
        into.push(own(instr))?;
    }
    Ok(Alterations { without, into })
}

// A register, if it isn't known where it lies.
fn unknown(known: &Known, side: Side, register: u16) -> Option<(Side, u16)> {
    let row: &[Option<u16>] = match side {
        Side::Uniform => &known.uniform,
        Side::Private => &known.active,
    };
    match place(row, register) {
        Some(_) => None,
        None => Some((side, register)),
    }
}

// A register, if it doesn't lie in its place.
fn displaced(known: &Known, side: Side, register: u16) -> Option<(Side, u16)> {
    let row: &[Option<u16>] = match side {
        Side::Uniform => &known.uniform,
        Side::Private => &known.active,
    };
    match place(row, register) {
        Some(place) if place == register => None,
        _ => Some((side, register)),
    }
}

// The first of two, or the second.
fn first_of(one: Option<(Side, u16)>, other: Option<(Side, u16)>) -> Option<(Side, u16)> {
    match one {
        Some(found) => Some(found),
        None => other,
    }
}

// A register that isn't where the changed instruction needs it.
fn missing(known: &Known, instr: Instr) -> Option<(Side, u16)> {
    match instr {
        Instr::Copy { side, source, .. }
        | Instr::Negate { side, source, .. }
        | Instr::Not { side, source, .. } => unknown(known, side, source),
        Instr::Calculate {
            side,
            left,
            right,
            ..
        }
        | Instr::Decide {
            side,
            left,
            right,
            ..
        } => first_of(unknown(known, side, left), unknown(known, side, right)),
        Instr::CopyUniform { source, .. }
        | Instr::Print { source }
        | Instr::JumpIfZero { source, .. } => unknown(known, Side::Uniform, source),
        Instr::Enter { low, high, .. } => first_of(
            unknown(known, Side::Uniform, low),
            unknown(known, Side::Uniform, high),
        ),
        Instr::Mask { source } => unknown(known, Side::Private, source),
        Instr::Ask {
            side,
            destination,
            subscript,
            ..
        } => first_of(
            unknown(known, side, subscript),
            displaced(known, side, destination),
        ),
        Instr::Put {
            side,
            subscript,
            value,
            ..
        } => first_of(unknown(known, side, subscript), unknown(known, side, value)),
        _ => None,
    }
}

impl Alterations {
    // Whether an instruction is altered.
    fn is_altered(&self, instructions: &[Instr], at: usize) -> bool {
        match instructions.get(at).copied() {
            Some(instr) => flag(&self.without, at) || item(&self.into, at) != own(instr),
            None => false,
        }
    }

    // Leaves an instruction as it is.
    fn restore(&mut self, instructions: &[Instr], at: usize) {
        if let Some(instr) = instructions.get(at).copied() {
            if at < self.without.len() && at < self.into.len() {
                self.without[at] = false;
                self.into[at] = own(instr);
            }
        }
    }

    // Leaves an instruction as it is that sets the register, if it's altered, and the copy of its result, or the one whose
    // result it copies.
    fn restore_result(
        &mut self,
        instructions: &[Instr],
        at: usize,
        side: Side,
        register: u16,
    ) -> bool {
        if !self.is_altered(instructions, at) {
            return false;
        }
        let found = match instructions.get(at).copied() {
            Some(instr) => match result(instr) {
                Some((other, destination)) => is_side(side, other) && destination == register,
                None => false,
            },
            None => false,
        };
        if !found {
            return false;
        }
        self.restore(instructions, at);
        if copied_behind(instructions, at).is_some() {
            self.restore(instructions, at.saturating_add(1));
        }
        if at > 0 && copied_behind(instructions, at - 1).is_some() {
            self.restore(instructions, at - 1);
        }
        true
    }

    // Restores what set a register that is missing at a place: the last one above it, or else one below.
    fn mend(&mut self, instructions: &[Instr], at: usize, side: Side, register: u16) -> bool {
        for back in 0..at {
            if self.restore_result(instructions, at - 1 - back, side, register) {
                return true;
            }
        }
        for below in at..instructions.len() {
            if self.restore_result(instructions, below, side, register) {
                return true;
            }
        }
        false
    }

    /// Restores what set the registers that are missing, and answers whether any was.
    pub(crate) fn mend_all(&mut self, instructions: &[Instr], flow: &Flow) -> bool {
        let mut mended = false;
        for at in 0..instructions.len() {
            if !flag(&self.without, at) {
                if let Some(known) = flow.known.get(at) {
                    if let Some((side, register)) = missing(known, instructions[at]) {
                        if self.mend(instructions, at, side, register) {
                            mended = true;
                        }
                    }
                }
            }
        }
        mended
    }

    /// Whether a register is missing at any place.
    pub(crate) fn is_missing_any(&self, instructions: &[Instr], flow: &Flow) -> bool {
        for at in 0..instructions.len() {
            if !flag(&self.without, at) {
                if let Some(known) = flow.known.get(at) {
                    if missing(known, instructions[at]).is_some() {
                        return true;
                    }
                }
            }
        }
        false
    }

    /// Whether an instruction is left out that sets no constant.
    pub(crate) fn leaves_any(&self, instructions: &[Instr], constants: &Constants) -> bool {
        for at in 0..instructions.len() {
            if flag(&self.without, at) {
                match instructions[at] {
                    Instr::Set {
                        side,
                        destination,
                        ..
                    } if is_constant(constants, side, destination) => {}
                    _ => return true,
                }
            }
        }
        false
    }

    // Takes the alteration of an instruction from others.
    fn take(&mut self, from: &Alterations, at: usize) {
        if at < self.without.len() && at < self.into.len() {
            self.without[at] = flag(&from.without, at);
            self.into[at] = item(&from.into, at);
        }
    }

    /// Alters an instruction as in others, and the copy of its result with it, if it was altered there and isn't here.
    pub(crate) fn alter(&mut self, instructions: &[Instr], from: &Alterations, at: usize) -> bool {
        if self.is_altered(instructions, at) || !from.is_altered(instructions, at) {
            return false;
        }
        self.take(from, at);
        if copied_behind(instructions, at).is_some() {
            self.take(from, at.saturating_add(1));
        }
        true
    }

    /// Leaves an instruction as it is, and the copy of its result.
    pub(crate) fn undo(&mut self, instructions: &[Instr], at: usize) {
        self.restore(instructions, at);
        if copied_behind(instructions, at).is_some() {
            self.restore(instructions, at.saturating_add(1));
        }
    }

    // Whether an instruction from a place on is left out whose number lies in that register; in one range alone, or anywhere.
    fn is_used(
        &self,
        instructions: &[Instr],
        from: usize,
        in_range: bool,
        asked: Side,
        register: u16,
    ) -> bool {
        for at in from..instructions.len() {
            match instructions[at] {
                Instr::Set { side, .. } => {
                    if is_side(side, asked)
                        && flag(&self.without, at)
                        && item(&self.into, at) == register
                    {
                        return true;
                    }
                }
                Instr::Leave if in_range => return false,
                _ => {}
            }
        }
        false
    }

    // Leaves an instruction out, or not.
    fn leave(&mut self, at: usize, left: bool, into: u16) {
        if at < self.without.len() && at < self.into.len() {
            self.without[at] = left;
            self.into[at] = into;
        }
    }

    /// Leaves out the constants that nothing uses: private ones by what is used up to the end of the range, as it's written, or by what is
    /// used anywhere.
    pub(crate) fn leave_unused(
        &mut self,
        instructions: &[Instr],
        constants: &Constants,
        by_range: bool,
    ) {
        for at in 0..instructions.len() {
            if let Instr::Set {
                side,
                destination,
                ..
            } = instructions[at]
            {
                if is_constant(constants, side, destination) {
                    let in_range = by_range && matches!(side, Side::Private);
                    let from = if in_range { at } else { 0 };
                    let used = self.is_used(instructions, from, in_range, side, destination);
                    self.leave(at, !used, if used { destination } else { 0 });
                }
            }
        }
    }
}
