//! Superstep code.

ghost use Rattle.std.specs.Prelude.{◌≡◌, ◌<◌, ◌≤◌, ◌++◌, ◌∷◌, [], length, OnOk, OnErr};
ghost use Rattle.std.specs.List.{AllByRecursion};
ghost use Rattle.superstep_instructions.specs.Limits.{IsCode, IsInstr, IsLayout, most_procs, most_registers, most_instructions};

use crate::instr::Instr;
use pram_model::{Layout, Rule};
use std::alloc::{AllocError, Global};
use std::marker::Model;

/// Code of the superstep machine, within the limits of a listing: 1 to 16,384 processors; a layout
/// of different names and at most 1,048,576 cells, whose arrays have no negative subscripts; at
/// most 65,536 registers of either side, and at most 65,536 instructions. Whether it can run is
/// another question.
#[derive(Drop)]
pub struct Code {
    rule: Rule,
    procs: u32,
    layout: Layout,
    uniform_registers: u32,
    private_registers: u32,
    instructions: Vec<Instr>,
}

impl Model for Code {
    ghost use Rattle.superstep_instructions.specs.Code.{SuperstepCode};

    ghost Value = { SuperstepCode };

    ghost use Rattle.superstep_instructions.specs.CodeFields.{shown};
    ghost use Rattle.superstep_instructions.specs.Limits.{IsCode};

    ghost view = { shown };

    ghost invariant = { λ c. IsCode (shown c) };
}

impl Code {
    /// Code without instructions.
    pub fn new(
        alloc: Global,
        rule: Rule,
        procs: u32,
        layout: Layout,
        uniform_registers: u32,
        private_registers: u32,
    ) -> Code
        requires some_procs { 0 < procs }
        requires few_procs { procs ≤ most_procs }
        requires layout { IsLayout layout }
        requires few_uniform { uniform_registers ≤ most_registers }
        requires few_private { private_registers ≤ most_registers }
        ensures value { result ≡ record {
          rule = rule;
          procs = procs;
          layout = layout;
          uniform_registers = uniform_registers;
          private_registers = private_registers;
          instructions = [];
        } }
    {
        Code {
            rule,
            procs,
            layout,
            uniform_registers,
            private_registers,
            instructions: Vec::new(alloc),
        }
    }

    /// Code of these parts, which are within the limits.
    pub fn of(
        rule: Rule,
        procs: u32,
        layout: Layout,
        uniform_registers: u32,
        private_registers: u32,
        instructions: Vec<Instr>,
    ) -> Code
        requires some_procs { 0 < procs }
        requires few_procs { procs ≤ most_procs }
        requires layout { IsLayout layout }
        requires few_uniform { uniform_registers ≤ most_registers }
        requires few_private { private_registers ≤ most_registers }
        requires few { length instructions.items ≤ most_instructions }
        requires fit { AllByRecursion IsInstr instructions.items }
        ensures value { result ≡ record {
          rule = rule;
          procs = procs;
          layout = layout;
          uniform_registers = uniform_registers;
          private_registers = private_registers;
          instructions = instructions.items;
        } }
    {
        Code {
            rule,
            procs,
            layout,
            uniform_registers,
            private_registers,
            instructions,
        }
    }

    /// Takes an instruction in, behind the others.
    pub fn push(&mut self, instr: Instr) -> Result<(), AllocError>
        requires room { length self.old.instructions < most_instructions }
        ensures ok { OnOk result (self.new ≡ record self.old { instructions = self.old.instructions ++ instr ∷ [] }) }
        ensures err { OnErr result (self.new ≡ self.old) }
    {
        instr.operands_fit();
        self.instructions.push(instr)?;
        Ok(())
    }

    /// The rule of concurrent access.
    pub fn rule(&self) -> Rule
        ensures value { result ≡ self.now.rule }
    {
        self.rule
    }

    /// The greatest number of processors of a range.
    pub fn procs(&self) -> u32
        ensures value { result ≡ self.now.procs }
    {
        self.procs
    }

    /// The shared declarations.
    pub fn layout(&self) -> &Layout
        ensures value { result.now ≡ self.now.layout }
    {
        &self.layout
    }

    /// How many uniform registers there are.
    pub fn uniform_registers(&self) -> u32
        ensures value { result ≡ self.now.uniform_registers }
    {
        self.uniform_registers
    }

    /// How many registers each processor has.
    pub fn private_registers(&self) -> u32
        ensures value { result ≡ self.now.private_registers }
    {
        self.private_registers
    }

    /// The instructions, numbered from 0.
    pub fn instructions(&self) -> &[Instr]
        ensures value { result.now ≡ self.now.instructions }
        // Every code is within the limits.
        ensures stands { IsCode self.now }
    {
        self.instructions.as_slice()
    }
}
