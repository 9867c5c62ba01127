//! What an instruction on private registers does to a worker's processors.

ghost use Rattle.std.specs.Prelude.{◌≡◌, ◌<◌, ◌+ℤ◌, ◌<ℤ◌, ◌^◌, ℕ, pos, length};
ghost use Rattle.superstep_instructions.specs.Code.{SuperstepCode};
ghost use Rattle.instruction_steps.specs.Views.{uniform_of};
ghost use Rattle.worker_bank.specs.Bank.{number_of, IsAfter, IsFirstFault, IsBank, IsSameBank};
ghost use Rattle.worker_steps.specs.Kinds.{IsOwn};

use instruction_steps::{UniformState, register};
use pram_values::Kind;
use superstep_instructions::{Instr, Side};
use worker_bank::Bank;

/// An instruction on private registers. The answer is the first processor that faults, and its kind.
pub fn work(bank: &mut Bank, u: &UniformState, instr: Instr) -> Option<(usize, Kind)>
    requires bank { IsBank bank.old }
    requires registers { IsOwn (length bank.old.columns.items) instr }
    requires within { (j : ℕ) → j < bank.old.masks.many → (u.now.low +ℤ pos (number_of bank.old j)) <ℤ pos (2 ^ 63) }
    ensures bank { IsBank bank.new }
    ensures after { (code : SuperstepCode) → IsAfter code instr (uniform_of u.now) bank.old bank.new }
    ensures fault { (code : SuperstepCode) → IsFirstFault code instr bank.old result }
    ensures masks { bank.new.masks ≡ bank.old.masks }
    ensures same { IsSameBank bank.old bank.new }
{
    instr.operands_fit();
    match instr {
        Instr::Set {
            side: Side::Private,
            destination,
            value,
        } => bank.set(destination, value),
        Instr::Copy {
            side: Side::Private,
            destination,
            source,
        } => bank.copy(destination, source),
        Instr::Negate {
            side: Side::Private,
            destination,
            source,
            ..
        } => return bank.negate(destination, source),
        Instr::Calculate {
            side: Side::Private,
            operation,
            destination,
            left,
            right,
            ..
        } => return bank.calculate(operation, destination, left, right),
        Instr::Decide {
            side: Side::Private,
            operation,
            destination,
            left,
            right,
        } => bank.decide(operation, destination, left, right),
        Instr::Not {
            side: Side::Private,
            destination,
            source,
        } => bank.not(destination, source),
        Instr::CopyUniform {
            destination,
            source,
        } => bank.set(destination, register(&u.registers, source)),
        Instr::Index { destination } => bank.index(destination, u.low),
        _ => unreachable!(),
    }
    None
}
