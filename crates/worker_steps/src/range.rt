//! Ranges of processors.

ghost use Rattle.std.specs.Prelude.{◌≡◌, true};
ghost use Rattle.superstep_machine.specs.Steps.{renews};
ghost use Rattle.worker_steps.specs.Fitted.{IsFitted};
ghost use Rattle.worker_steps.specs.Met.{IsMetAt};
ghost use Rattle.worker_steps.specs.Done.{IsDone};

use crate::worker::WorkerState;
use instruction_steps::change_range;
use superstep_instructions::{Code, Instr};
use worker_bank::how_many;

impl WorkerState {
    /// A range begins or ends: the worker has its processors of it, all of them active and with all registers 0.
    #[inline(never)]
    pub(crate) fn change_range(&mut self, code: &Code, instr: Instr)
        requires fitted { IsFitted code.now self.old }
        requires renews { renews instr ≡ true }
        requires met { IsMetAt code.now instr self.old }
        ensures { IsDone code.now instr self.old self.new }
    {
        let wrong = change_range(&mut self.uniform, code, instr);
        let many = how_many(self.bank.workers, self.bank.worker, self.uniform.width);
        self.bank.enter(many as usize);
        if let Some(kind) = wrong {
            self.note_shared(&instr, kind);
        }
    }
}
