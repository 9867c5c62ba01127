//! Writes.

ghost use Rattle.std.specs.Prelude.{◌≡◌, None, OnOk, OnErr, if◌then◌else◌};
ghost use Rattle.std.proofs.Common.{eqb};
ghost use Rattle.superstep_machine.specs.Steps.{uniform_write as spec_uniform_write};
ghost use Rattle.instruction_steps.specs.Views.{uniform_of, IsShort};
ghost use Rattle.superstep_instructions.specs.declared.instr.Instr.TheVariants as instr_is;
ghost use Rattle.superstep_instructions.specs.declared.instr.Side.TheVariants as side_is;
ghost use Rattle.worker_steps.specs.Fitted.{IsFitted};
ghost use Rattle.worker_steps.specs.Met.{IsMetAt};
ghost use Rattle.worker_steps.specs.Done.{IsDone};

use crate::holding::{hold_write, hold_writes};
use crate::noting::own_key;
use crate::worker::WorkerState;
use instruction_steps::{UniformState, step_uniform, uniform_key, uniform_write};
use std::alloc::AllocError;
use superstep_instructions::{Code, Instr, Side};
use superstep_machine::least;
use write_rules::WriteRule;

// The uniform part's write is worker 0's alone.
fn write_of(worker: u32, code: &Code, instr: Instr, u: &UniformState) -> Option<(u32, i64)>
    ensures { result ≡ (if eqb worker 0 then spec_uniform_write code.now instr (uniform_of u.now) else None) }
{
    if worker == 0 {
        uniform_write(code, instr, u)
    } else {
        None
    }
}

impl WorkerState {
    /// A write of the uniform part is held, by worker 0 alone.
    pub(crate) fn put_uniform<R: WriteRule>(
        &mut self,
        code: &Code,
        rule: &R,
        entry: u16,
        subscript: u16,
        value: u16,
        position: u32,
    ) -> Result<(), AllocError>
        requires fitted { IsFitted code.now self.old }
        requires rule { R.WriteRule.rule rule.now ≡ code.now.rule }
        requires met { IsMetAt code.now (instr_is.Put side_is.Uniform entry subscript value position) self.old }
        ensures done { OnOk result (IsDone code.now (instr_is.Put side_is.Uniform entry subscript value position) self.old self.new) }
        ensures refused { OnErr result (IsShort (instr_is.Put side_is.Uniform entry subscript value position) self.old.uniform) }
    {
        let instr = Instr::Put {
            side: Side::Uniform,
            entry,
            subscript,
            value,
            position,
        };
        let noted = uniform_key(code, instr, &self.uniform);
        let key = least(self.key, noted);
        let write = write_of(self.bank.worker, code, instr, &self.uniform);
        self.puts.clear();
        hold_write(&mut self.puts, rule, 0, write);
        step_uniform(&mut self.uniform, code, instr)?;
        self.key = key;
        Ok(())
    }

    /// A write of the active processors is held.
    pub(crate) fn put_private<R: WriteRule>(
        &mut self,
        code: &Code,
        rule: &R,
        entry: u16,
        subscript: u16,
        value: u16,
        position: u32,
    ) -> Result<(), AllocError>
        requires fitted { IsFitted code.now self.old }
        requires rule { R.WriteRule.rule rule.now ≡ code.now.rule }
        requires met { IsMetAt code.now (instr_is.Put side_is.Private entry subscript value position) self.old }
        ensures done { OnOk result (IsDone code.now (instr_is.Put side_is.Private entry subscript value position) self.old self.new) }
        ensures refused { OnErr result (IsShort (instr_is.Put side_is.Private entry subscript value position) self.old.uniform) }
    {
        let fault = self.bank.put(code.layout(), entry, subscript, self.written.as_mut_slice());
        let noted = own_key(&self.uniform, &self.bank, position, fault);
        let key = least(self.key, noted);
        self.bank.freshen(value);
        self.puts.clear();
        hold_writes(
            &mut self.puts,
            rule,
            &self.uniform,
            &self.bank,
            self.written.as_slice(),
            self.bank.values_of(value),
        );
        let instr = Instr::Put {
            side: Side::Private,
            entry,
            subscript,
            value,
            position,
        };
        step_uniform(&mut self.uniform, code, instr)?;
        self.key = key;
        Ok(())
    }
}
