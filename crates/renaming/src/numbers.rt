//! New numbers for registers.

ghost use Rattle.std.specs.Prelude.{◌≡◌, ◌^◌, ℕ, length, slice_index_or, IfOk};

use crate::named::named;
use std::alloc::{AllocError, Global};
use superstep_instructions::{Instr, Side};

/// The new number of each register, the register that has each, and how many were given: those below that are of the registers which were
/// asked for so far, in turn. A register that wasn't has one of the others.
#[derive(Drop)]
pub(crate) struct Numbers {
    pub(crate) numbers: Vec<u16>,
    pub(crate) registers: Vec<u16>,
    pub(crate) given: u32,
}

// Each number by itself.
fn own_numbers(alloc: Global) -> Result<Vec<u16>, AllocError>
    ensures long { IfOk result (λ all. length all.items ≡ 2 ^ 16) }
    ensures own { IfOk result (λ all. (r : ℕ) → slice_index_or all.items r r ≡ r) }
{
    let mut all = Vec::new(alloc);
    for r in 0..65536_u32 {
        all.push(r as u16)?;
    }
    Ok(all)
}

impl Numbers {
    ghost use Rattle.std.specs.Prelude.{◌≡◌, ℕ, IfOk};
    ghost use Rattle.renaming.specs.Named.{IsAmong, IsNamedIn, named as spec_named};
    ghost use Rattle.renaming.specs.Numbers.{AreNumbers, HaveNumbers, number_of};

    /// No number was given yet, and each register has its own.
    pub(crate) fn new(alloc: Global) -> Result<Numbers, AllocError>
        ensures numbers { IfOk result (λ x. AreNumbers x) }
        ensures none { IfOk result (λ x. x.given ≡ 0) }
    {
        let numbers = own_numbers(alloc)?;
        let registers = own_numbers(alloc)?;
        Ok(Numbers {
            numbers,
            registers,
            given: 0,
        })
    }

    /// The number that a register has.
    pub(crate) fn number(&self, register: u16) -> u16
        requires { AreNumbers self.now }
        ensures { result ≡ number_of self.now register }
    {
        self.numbers[register as usize]
    }

    // Gives a register the next number, unless it has one. The register that has had that gets this one's.
    fn give(&mut self, register: u16)
        requires { AreNumbers self.old }
        ensures { HaveNumbers (λ r. r ≡ register) self.old self.new }
    {
        let old = self.numbers[register as usize];
        if (old as u32) < self.given {
            return;
        }
        let next = self.given as u16;
        let other = self.registers[next as usize];
        self.numbers[other as usize] = old;
        self.registers[old as usize] = other;
        self.numbers[register as usize] = next;
        self.registers[next as usize] = register;
        self.given += 1;
    }

    // Gives numbers to the registers of a side that an instruction names.
    fn give_named(&mut self, side: Side, instr: Instr)
        requires { AreNumbers self.old }
        ensures { HaveNumbers (λ r. IsAmong r (spec_named side instr)) self.old self.new }
    {
        let names = named(side, instr);
        for k in 0..names.len() {
            if let Some(register) = names[k] {
                self.give(register);
            }
        }
    }

    /// Gives numbers to the registers of a side that these instructions name.
    pub(crate) fn give_all(&mut self, side: Side, instructions: &[Instr])
        requires { AreNumbers self.old }
        ensures { HaveNumbers (IsNamedIn side instructions.now) self.old self.new }
    {
        for k in 0..instructions.len() {
            self.give_named(side, instructions[k]);
        }
    }
}
