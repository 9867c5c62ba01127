//! Masks of a worker's processors.

ghost use Rattle.superstep_instructions.specs.declared.instr.Instr.TheVariants as instr_is;
ghost use Rattle.worker_steps.specs.Fitted.{IsFitted};
ghost use Rattle.worker_steps.specs.Met.{IsMetAt};
ghost use Rattle.worker_steps.specs.Done.{IsDone};

use crate::worker::WorkerState;
use superstep_instructions::Code;

impl WorkerState {
    /// Of the active processors those stay active whose `source` isn't 0.
    pub(crate) fn mask(&mut self, code: &Code, source: u16)
        requires fitted { IsFitted code.now self.old }
        requires met { IsMetAt code.now (instr_is.Mask source) self.old }
        ensures { IsDone code.now (instr_is.Mask source) self.old self.new }
    {
        let _procs = code.procs();
        self.bank.mask(source);
    }

    /// Of those that were active before the last mask, those are active that are not now.
    pub(crate) fn flip(&mut self, code: &Code)
        requires fitted { IsFitted code.now self.old }
        requires met { IsMetAt code.now instr_is.Flip self.old }
        ensures { IsDone code.now instr_is.Flip self.old self.new }
    {
        let _procs = code.procs();
        self.bank.flip();
    }

    /// Takes the last mask off.
    pub(crate) fn unmask(&mut self, code: &Code)
        requires fitted { IsFitted code.now self.old }
        requires met { IsMetAt code.now instr_is.Unmask self.old }
        ensures { IsDone code.now instr_is.Unmask self.old self.new }
    {
        let _procs = code.procs();
        self.bank.unmask();
    }
}
