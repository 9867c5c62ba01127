//! Code that grows.

ghost use Rattle.std.specs.Prelude.{◌≡◌, ◌<◌, ◌+◌, ◌^◌, ◌∷◌, [], IfOk, OnOk, length, true, false};
ghost use Rattle.superstep_instructions.specs.declared.instr.Instr.TheVariants.{Send, Reply, Halt};
ghost use Rattle.plain_form.specs.Shapes as shapes;
ghost use Rattle.straight_lowering.specs.Written.{added, wrote, patched};

use std::alloc::{AllocError, Global};
use std::marker::Model;
use superstep_instructions::Instr;

/// The instructions so far, and whether a write is held behind them.
#[derive(Drop)]
pub struct Emitter {
    instructions: Vec<Instr>,
    held: bool,
}

impl Model for Emitter {
    ghost use Rattle.straight_lowering.specs.Written.{Written};

    ghost Value = { Written };

    ghost view = { λ e. record { instructions = e.instructions.items; held = e.held } };
}

/// A number of a register, a declaration or an instruction, as code has it.
pub fn short(number: usize) -> u16
    requires { number < 2 ^ 16 }
    ensures { result ≡ number }
{
    number as u16
}

impl Emitter {
    /// No instruction yet, and no write held.
    pub fn new(alloc: Global) -> Emitter
        ensures { result ≡ record { instructions = []; held = false } }
    {
        Emitter {
            instructions: Vec::new(alloc),
            held: false,
        }
    }

    /// Gives out the instructions, when all are there.
    pub fn instructions(self) -> Vec<Instr>
        ensures { result.items ≡ self.instructions }
    {
        let Emitter {
            instructions,
            held: _,
        } = self;
        instructions
    }

    /// Appends an instruction that holds no write and sends none.
    pub fn push(&mut self, instr: Instr) -> Result<(), AllocError>
        ensures { OnOk result (self.new ≡ added (instr ∷ []) self.old) }
    {
        self.instructions.push(instr)?;
        Ok(())
    }

    /// Where the next instruction will stand.
    pub fn place(&self) -> u16
        requires { length self.now.instructions < 2 ^ 16 }
        ensures { result ≡ length self.now.instructions }
    {
        short(self.instructions.len())
    }

    /// The place behind so many instructions more.
    pub fn place_behind(&self, more: usize) -> u16
        requires few { more < 8 }
        requires room { length self.now.instructions + more < 2 ^ 16 }
        ensures { result ≡ length self.now.instructions + more }
    {
        let next = self.place();
        short(next as usize + more)
    }

    /// Leaves a place for an instruction that comes to be known later.
    pub fn gap(&mut self) -> Result<usize, AllocError>
        ensures place { IfOk result (λ n. n ≡ length self.old.instructions) }
        ensures added { OnOk result (self.new ≡ added (Halt ∷ []) self.old) }
    {
        let place = self.instructions.len();
        self.push(Instr::Halt)?;
        Ok(place)
    }

    /// The instruction of a place that was left.
    pub fn fill(&mut self, place: usize, instr: Instr)
        requires { place < length self.old.instructions }
        ensures { self.new ≡ patched place instr self.old }
    {
        self.instructions[place] = instr;
    }

    /// Sends the write that is held.
    pub fn flush(&mut self) -> Result<(), AllocError>
        ensures { OnOk result (self.new ≡ wrote (shapes.flush self.old.held) false self.old) }
    {
        if self.held {
            self.push(Instr::Send)?;
            self.held = false;
        }
        Ok(())
    }

    /// A statement begins.
    pub(crate) fn mark(&mut self, line: u32) -> Result<(), AllocError>
        ensures { OnOk result (self.new ≡ added (shapes.begun true self.old.held line) self.old) }
    {
        self.push(Instr::Mark { line })?;
        if !self.held {
            self.push(Instr::Send)?;
        }
        Ok(())
    }

    /// The exchanges of a group of reads.
    pub(crate) fn exchange(&mut self) -> Result<(), AllocError>
        ensures { OnOk result (self.new ≡ wrote (Send ∷ Reply ∷ []) false self.old) }
    {
        self.push(Instr::Send)?;
        self.push(Instr::Reply)?;
        self.held = false;
        Ok(())
    }

    /// A write, which is held from here on.
    pub(crate) fn hold(&mut self, write: Instr) -> Result<(), AllocError>
        ensures { OnOk result (self.new ≡ wrote (write ∷ []) true self.old) }
    {
        self.push(write)?;
        self.held = true;
        Ok(())
    }
}
