//! Reads.

ghost use Rattle.std.specs.Prelude.{OnOk, OnErr};
ghost use Rattle.superstep_instructions.specs.declared.instr.Instr.TheVariants as instr_is;
ghost use Rattle.superstep_instructions.specs.declared.instr.Side.TheVariants as side_is;
ghost use Rattle.instruction_steps.specs.Views.{IsShort};
ghost use Rattle.worker_steps.specs.Fitted.{IsFitted};
ghost use Rattle.worker_steps.specs.Met.{IsMetAt};
ghost use Rattle.worker_steps.specs.Done.{IsDone};

use crate::holding::{hold_ask, hold_asks};
use crate::noting::own_key;
use crate::worker::WorkerState;
use instruction_steps::{register, step_uniform, uniform_key};
use std::alloc::AllocError;
use superstep_instructions::{Code, Instr, Side};
use superstep_machine::least;

impl WorkerState {
    /// A read of the uniform part is held.
    pub(crate) fn ask_uniform(
        &mut self,
        code: &Code,
        destination: u16,
        entry: u16,
        subscript: u16,
        position: u32,
    ) -> Result<(), AllocError>
        requires fitted { IsFitted code.now self.old }
        requires met { IsMetAt code.now (instr_is.Ask side_is.Uniform destination entry subscript position) self.old }
        ensures done { OnOk result (IsDone code.now (instr_is.Ask side_is.Uniform destination entry subscript position) self.old self.new) }
        ensures refused { OnErr result (IsShort (instr_is.Ask side_is.Uniform destination entry subscript position) self.old.uniform) }
    {
        let instr = Instr::Ask {
            side: Side::Uniform,
            destination,
            entry,
            subscript,
            position,
        };
        let noted = uniform_key(code, instr, &self.uniform);
        let key = least(self.key, noted);
        let ordinal = self.uniform.asks.len() as u32;
        let layout = code.layout();
        let _cells = layout.cells();
        let cell = layout.cell(entry as usize, register(&self.uniform.registers, subscript));
        hold_ask(&mut self.asks, ordinal, cell);
        step_uniform(&mut self.uniform, code, instr)?;
        self.key = key;
        Ok(())
    }

    /// A read of the active processors is held.
    pub(crate) fn ask_private(
        &mut self,
        code: &Code,
        destination: u16,
        entry: u16,
        subscript: u16,
        position: u32,
    ) -> Result<(), AllocError>
        requires fitted { IsFitted code.now self.old }
        requires met { IsMetAt code.now (instr_is.Ask side_is.Private destination entry subscript position) self.old }
        ensures done { OnOk result (IsDone code.now (instr_is.Ask side_is.Private destination entry subscript position) self.old self.new) }
        ensures refused { OnErr result (IsShort (instr_is.Ask side_is.Private destination entry subscript position) self.old.uniform) }
    {
        let k = self.uniform.asks.len();
        let layout = code.layout();
        let _cells = layout.cells();
        let column = &mut self.asked[k];
        let fault = self.bank.ask(layout, destination, entry, subscript, column.as_mut_slice());
        hold_asks(
            &mut self.asks,
            k as u32,
            column.as_slice(),
            self.bank.masks.many,
        );
        let noted = own_key(&self.uniform, &self.bank, position, fault);
        let key = least(self.key, noted);
        step_uniform(
            &mut self.uniform,
            code,
            Instr::Ask {
                side: Side::Private,
                destination,
                entry,
                subscript,
                position,
            },
        )?;
        self.key = key;
        Ok(())
    }
}
