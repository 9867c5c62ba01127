//! The key that a worker's processors note.

ghost use Rattle.std.specs.Prelude.{◌≡◌, ◌<◌, ℕ, Some};
ghost use Rattle.superstep_instructions.specs.declared.instr.Instr.{Instr};
ghost use Rattle.superstep_machine.specs.Results.{position_of};
ghost use Rattle.instruction_steps.specs.Views.{uniform_of};
ghost use Rattle.worker_bank.specs.Bank.{number_of, IsBank};
ghost use Rattle.worker_bank.specs.InstructionReports.{key_of};
ghost use Rattle.pram_values.specs.declared.kind.Kind.{Kind as FaultKind};

use instruction_steps::{UniformState, fault_at, index_of};
use pram_values::{Kind, Place};
use superstep_machine::Key;
use worker_bank::Bank;

/// The number of a processor in the range.
pub fn number(u: &UniformState, bank: &Bank, j: usize) -> u32
    requires bank { IsBank bank.now }
    requires there { j < bank.now.masks.many }
    requires below { number_of bank.now j < u.now.width }
    ensures { result ≡ number_of bank.now j }
{
    let _most = bank.masks.most;
    let _width = u.width;
    bank.worker + bank.workers * (j as u32)
}

/// The key of the first processor that faults.
pub fn own_key(
    u: &UniformState,
    bank: &Bank,
    position: u32,
    fault: Option<(usize, Kind)>,
) -> Option<Key>
    requires bank { IsBank bank.now }
    requires there { (j : ℕ) (kind : FaultKind) → fault ≡ Some (j, kind) → j < bank.now.masks.many }
    requires below { (j : ℕ) → j < bank.now.masks.many → number_of bank.now j < u.now.width }
    ensures { (i : Instr) → position_of i ≡ position → result ≡ key_of i (uniform_of u.now) bank.now fault }
{
    match fault {
        None => None,
        Some((j, kind)) => {
            let place = Place::Processor(index_of(u, number(u, bank, j)));
            fault_at(u, position, place, Some(kind))
        }
    }
}
