//! What is known at each place: that on all ways there, as far as the other code's run is known to go.

use crate::certificate::{Constants, Known, item, place};
use crate::numbers::short;
use crate::rows::{Part, all_behind, all_zero, behind};
use std::alloc::{AllocError, Global};
use superstep_instructions::{Instr, Side};

/// How many registers a side of the code has.
#[derive(Clone, Copy)]
pub(crate) struct Widths {
    pub(crate) uniform: u32,
    pub(crate) private: u32,
}

/// Which instructions the other code hasn't got, and the register that each computes into.
#[derive(Drop)]
pub(crate) struct Alterations {
    pub(crate) without: Vec<bool>,
    pub(crate) into: Vec<u16>,
}

// A flag, or false where there is none.
pub(crate) fn flag(flags: &[bool], at: usize) -> bool {
    matches!(flags.get(at).copied(), Some(true))
}

// A row of a part behind an instruction.
fn row_behind(
    alloc: Global,
    width: u32,
    without: bool,
    part: Part,
    constants: &Constants,
    into: u16,
    known: &Known,
    instr: Instr,
) -> Result<Vec<Option<u16>>, AllocError> {
    let mut row = Vec::new(alloc);
    for s in 0..width {
        row.push(behind(without, part, constants, into, known, instr, short(s)))?;
    }
    Ok(row)
}

// What is known behind an instruction.
fn known_behind(
    alloc: Global,
    widths: Widths,
    without: bool,
    constants: &Constants,
    into: u16,
    known: &Known,
    instr: Instr,
) -> Result<Known, AllocError> {
    let uniform = row_behind(
        alloc,
        widths.uniform,
        without,
        Part::Uniform,
        constants,
        into,
        known,
        instr,
    )?;
    let active = row_behind(
        alloc,
        widths.private,
        without,
        Part::Active,
        constants,
        into,
        known,
        instr,
    )?;
    let idle = row_behind(
        alloc,
        widths.private,
        without,
        Part::Idle,
        constants,
        into,
        known,
        instr,
    )?;
    Ok(Known {
        uniform,
        active,
        idle,
        all: all_behind(without, known.all, instr),
    })
}

// A row while all registers are 0.
fn zero_row(
    alloc: Global,
    width: u32,
    constants: &Constants,
    side: Side,
) -> Result<Vec<Option<u16>>, AllocError> {
    let mut row = Vec::new(alloc);
    for s in 0..width {
        row.push(all_zero(constants, side, short(s)))?;
    }
    Ok(row)
}

// Nothing is known.
fn nothing_known(alloc: Global) -> Known {
    Known {
        uniform: Vec::new(alloc),
        active: Vec::new(alloc),
        idle: Vec::new(alloc),
        all: false,
    }
}

// What is known at the beginning.
fn known_first(alloc: Global, widths: Widths, constants: &Constants) -> Result<Known, AllocError> {
    Ok(Known {
        uniform: zero_row(alloc, widths.uniform, constants, Side::Uniform)?,
        active: zero_row(alloc, widths.private, constants, Side::Private)?,
        idle: zero_row(alloc, widths.private, constants, Side::Private)?,
        all: true,
    })
}

// Forgets where a register lies.
fn forget(row: &mut [Option<u16>], s: usize) {
    if s < row.len() {
        row[s] = None;
    }
}

// Keeps of a row what the other says too, and answers whether that is less.
fn meet_row(row: &mut [Option<u16>], other: &[Option<u16>]) -> bool {
    let mut less = false;
    for s in 0..other.len() {
        let there = row.get(s).copied();
        if let Some(Some(one)) = there {
            match other[s] {
                Some(two) if one == two => {}
                _ => {
                    forget(row, s);
                    less = true;
                }
            }
        }
    }
    less
}

// Keeps of what is known what the other says too, and answers whether that is less.
fn meet(known: &mut Known, other: &Known) -> bool {
    let uniform = meet_row(&mut known.uniform, &other.uniform);
    let active = meet_row(&mut known.active, &other.active);
    let idle = meet_row(&mut known.idle, &other.idle);
    let all = known.all && !other.all;
    known.all = known.all && other.all;
    uniform || active || idle || all
}

/// What is known at each place that was reached so far.
#[derive(Drop)]
pub(crate) struct Flow {
    pub(crate) known: Vec<Known>,
    reached: Vec<bool>,
}

impl Flow {
    // Nothing is reached but the first place.
    fn new(
        alloc: Global,
        length: usize,
        widths: Widths,
        constants: &Constants,
    ) -> Result<Flow, AllocError> {
        let mut known = Vec::new(alloc);
        let mut reached = Vec::new(alloc);
        known.push(known_first(alloc, widths, constants)?)?;
        reached.push(true)?;
        for _ in 1..length {
            known.push(nothing_known(alloc))?;
            reached.push(false)?;
        }
        Ok(Flow { known, reached })
    }

    // Comes to a place, of which this is known then, and answers whether less is known there than before.
    fn come(&mut self, at: usize, known: Known) -> bool {
        if at >= self.known.len() || at >= self.reached.len() {
            return false;
        }
        if self.reached[at] {
            return meet(&mut self.known[at], &known);
        }
        self.reached[at] = true;
        self.known[at] = known;
        true
    }

    // Goes on from a place to another.
    fn go(
        &mut self,
        alloc: Global,
        widths: Widths,
        constants: &Constants,
        alterations: &Alterations,
        at: usize,
        instr: Instr,
        target: usize,
    ) -> Result<bool, AllocError> {
        let without = flag(&alterations.without, at);
        let into = item(&alterations.into, at);
        let behind = match self.known.get(at) {
            Some(known) => known_behind(alloc, widths, without, constants, into, known, instr)?,
            None => return Ok(false),
        };
        Ok(self.come(target, behind))
    }

    // Goes on from a place to its successors.
    fn step(
        &mut self,
        alloc: Global,
        widths: Widths,
        constants: &Constants,
        alterations: &Alterations,
        at: usize,
        instr: Instr,
    ) -> Result<bool, AllocError> {
        let next = at.saturating_add(1);
        match instr {
            Instr::Halt => Ok(false),
            Instr::Jump { target } => self.go(
                alloc,
                widths,
                constants,
                alterations,
                at,
                instr,
                target as usize,
            ),
            Instr::JumpIfZero { target, .. } => {
                let target = target as usize;
                let one = self.go(alloc, widths, constants, alterations, at, instr, target)?;
                let other = self.go(alloc, widths, constants, alterations, at, instr, next)?;
                Ok(one || other)
            }
            _ => self.go(alloc, widths, constants, alterations, at, instr, next),
        }
    }
}

/// What is known at each place where code is altered so. After so many rounds it's given as it is, which the check of the
/// certificate refuses.
pub(crate) fn followed(
    alloc: Global,
    instructions: &[Instr],
    widths: Widths,
    constants: &Constants,
    alterations: &Alterations,
) -> Result<Flow, AllocError> {
    let mut flow = Flow::new(alloc, instructions.len(), widths, constants)?;
    for _ in 0..16 {
        let mut less = false;
        for at in 0..instructions.len() {
            if flag(&flow.reached, at) {
                let instr = instructions[at];
                if flow.step(alloc, widths, constants, alterations, at, instr)? {
                    less = true;
                }
            }
        }
        if !less {
            break;
        }
    }
    Ok(flow)
}
