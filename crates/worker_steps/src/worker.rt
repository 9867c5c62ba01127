//! A worker between two exchanges.

ghost use Rattle.std.specs.Prelude.{◌≡◌, ◌<◌, ◌≤◌, ◌+◌, ◌*◌, ◌^◌, ℤ, List, length, IfOk};
ghost use Rattle.pram_model.specs.declared.rule.Rule.{Rule};
ghost use Rattle.superstep_instructions.specs.Code.{SuperstepCode};
ghost use Rattle.superstep_machine.specs.Setting.{Setting, workers as workers_of, processors};
ghost use Rattle.superstep_machine.specs.Run.{no_worker};
ghost use Rattle.worker_steps.specs.Shown.{Shows};
ghost use Rattle.worker_steps.specs.Fitted.{AreColumns, IsFitted};
ghost use Rattle.worker_steps.specs.Met.{IsVerifiedAt};

use combining::{Asks, Puts};
use instruction_steps::{UniformState, open_uniform};
use std::alloc::{AllocError, Global};
use superstep_machine::Key;
use worker_bank::Bank;

/// What instructions act on: the worker's copy of the uniform part, its processors, the place of the next instruction, and the least
/// key that it noted. For each read that is held, and for each that was sent and has no answer yet, a column has the cell that each
/// processor asks for; `written` is a column for the cells of a write. What is held for the next exchange is in `asks` and `puts`.
#[derive(Drop)]
pub struct WorkerState {
    pub uniform: UniformState,
    pub bank: Bank,
    pub asked: Vec<Vec<Option<u32>>>,
    pub awaited: Vec<Vec<Option<u32>>>,
    pub written: Vec<Option<u32>>,
    pub asks: Asks,
    pub puts: Puts,
    pub key: Option<Key>,
    pub place: u32,
}

// Eight columns of cells.
fn columns(alloc: Global, most: usize) -> Result<Vec<Vec<Option<u32>>>, AllocError>
    ensures { IfOk result (λ all. AreColumns most all.items) }
{
    let mut all = Vec::with_capacity(alloc, 8)?;
    for _ in 0..8usize {
        all.push(vec![in alloc; None; most]?)?;
    }
    Ok(all)
}

impl WorkerState {
    /// One of the workers before the first instruction, with so many uniform registers, and room for so many private ones and for so many
    /// processors. The error comes where memory was refused.
    pub fn new(
        alloc: Global,
        uniform_registers: u32,
        private_registers: u32,
        most: u32,
        worker: u32,
        workers: u32,
    ) -> Result<WorkerState, AllocError>
        requires worker { worker < workers }
        requires numbers { worker + workers * most < 2 ^ 32 }
        requires few { most < 2 ^ 26 }
        ensures worker { IfOk result (λ x. (x.bank.worker ≡ worker) × (x.bank.workers ≡ workers)) }
        ensures most { IfOk result (λ x. x.bank.masks.most ≡ most) }
        ensures place { IfOk result (λ x. x.place ≡ 0) }
        ensures fitted { IfOk result (λ x. (code : SuperstepCode) → code.uniform_registers ≡ uniform_registers →
            code.private_registers ≡ private_registers →
            ((t : Setting) → workers_of t ≡ workers → length (processors t worker code.procs) ≤ most) → IsFitted code x) }
        ensures verified { IfOk result (λ x. (code : SuperstepCode) → IsVerifiedAt code x) }
        // It shows the machine's worker before the first instruction, whatever cells that one has.
        ensures shows { IfOk result (λ x. (rule : Rule) (cells : List ℤ) → Shows rule x (record no_worker { cells = cells })) }
    {
        let bank = Bank::new(alloc, private_registers, most, 64, worker, workers)?;
        let count = most as usize;
        let asked = columns(alloc, count)?;
        let awaited = columns(alloc, count)?;
        let written = vec![in alloc; None; count]?;
        let asks = Asks::with_room(alloc, 8 * (count + 1))?;
        let puts = Puts::with_room(alloc, count + 1)?;
        let uniform = open_uniform(alloc, uniform_registers)?;
        Ok(WorkerState {
            uniform,
            bank,
            asked,
            awaited,
            written,
            asks,
            puts,
            key: None,
            place: 0,
        })
    }
}
