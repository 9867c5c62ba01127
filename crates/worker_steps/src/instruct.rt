//! Every instruction that is no mark, no exchange and no jump.

ghost use Rattle.std.specs.Prelude.{◌≡◌, true, OnOk, OnErr};
ghost use Rattle.superstep_instructions.specs.declared.instr.Instr.TheVariants as instr_is;
ghost use Rattle.instruction_steps.specs.Views.{IsShort};
ghost use Rattle.worker_steps.specs.Fitted.{IsFitted};
ghost use Rattle.worker_steps.specs.Met.{IsMetAt};
ghost use Rattle.worker_steps.specs.Kinds.{is_own as spec_is_own, is_work, is_on_registers};
ghost use Rattle.worker_steps.specs.Done.{IsDone};

use crate::worker::WorkerState;
use std::alloc::AllocError;
use superstep_instructions::{Code, Instr, Side};
use write_rules::WriteRule;

// Whether an instruction works on private registers.
#[inline(always)]
fn is_own(instr: Instr) -> bool
    ensures { result ≡ spec_is_own instr }
{
    match instr {
        Instr::Set { side, .. }
        | Instr::Copy { side, .. }
        | Instr::Negate { side, .. }
        | Instr::Calculate { side, .. }
        | Instr::Decide { side, .. }
        | Instr::Not { side, .. } => side == Side::Private,
        Instr::CopyUniform { .. } | Instr::Index { .. } => true,
        _ => false,
    }
}

impl WorkerState {
    // An instruction on registers, or an item of the output.
    fn step_registers(&mut self, code: &Code, instr: Instr) -> Result<(), AllocError>
        requires fitted { IsFitted code.now self.old }
        requires registers { is_on_registers instr ≡ true }
        requires met { IsMetAt code.now instr self.old }
        ensures done { OnOk result (IsDone code.now instr self.old self.new) }
        ensures refused { OnErr result (IsShort instr self.old.uniform) }
    {
        if is_own(instr) {
            self.step_own(code, instr);
            Ok(())
        } else {
            self.step_shared(code, &instr)
        }
    }

    // A read of a side.
    #[inline(never)]
    fn ask(
        &mut self,
        code: &Code,
        side: Side,
        destination: u16,
        entry: u16,
        subscript: u16,
        position: u32,
    ) -> Result<(), AllocError>
        requires fitted { IsFitted code.now self.old }
        requires met { IsMetAt code.now (instr_is.Ask side destination entry subscript position) self.old }
        ensures done { OnOk result (IsDone code.now (instr_is.Ask side destination entry subscript position) self.old self.new) }
        ensures refused { OnErr result (IsShort (instr_is.Ask side destination entry subscript position) self.old.uniform) }
    {
        match side {
            Side::Uniform => self.ask_uniform(code, destination, entry, subscript, position),
            Side::Private => self.ask_private(code, destination, entry, subscript, position),
        }
    }

    // A write of a side.
    #[inline(never)]
    fn put<R: WriteRule>(
        &mut self,
        code: &Code,
        rule: &R,
        side: Side,
        entry: u16,
        subscript: u16,
        value: u16,
        position: u32,
    ) -> Result<(), AllocError>
        requires fitted { IsFitted code.now self.old }
        requires rule { R.WriteRule.rule rule.now ≡ code.now.rule }
        requires met { IsMetAt code.now (instr_is.Put side entry subscript value position) self.old }
        ensures done { OnOk result (IsDone code.now (instr_is.Put side entry subscript value position) self.old self.new) }
        ensures refused { OnErr result (IsShort (instr_is.Put side entry subscript value position) self.old.uniform) }
    {
        match side {
            Side::Uniform => self.put_uniform(code, rule, entry, subscript, value, position),
            Side::Private => self.put_private(code, rule, entry, subscript, value, position),
        }
    }

    /// What an instruction that leads on to the next place does to a worker. The error comes where memory was refused, which only an item
    /// asks for for which the output has no room: nothing is said of the worker then.
    pub fn instruct<R: WriteRule>(
        &mut self,
        code: &Code,
        rule: &R,
        instr: Instr,
    ) -> Result<(), AllocError>
        requires fitted { IsFitted code.now self.old }
        requires rule { R.WriteRule.rule rule.now ≡ code.now.rule }
        requires work { is_work instr ≡ true }
        requires met { IsMetAt code.now instr self.old }
        // Whatever worker of the definition it showed, it shows that worker after the instruction.
        ensures done { OnOk result (IsDone code.now instr self.old self.new) }
        // Memory is refused only to an item of output for which there is no room, or to a read where eight are held.
        ensures refused { OnErr result (IsShort instr self.old.uniform) }
    {
        match instr {
            Instr::Enter { .. } | Instr::Leave => {
                self.change_range(code, instr);
                Ok(())
            }
            Instr::Mask { source } => {
                self.mask(code, source);
                Ok(())
            }
            Instr::Flip => {
                self.flip(code);
                Ok(())
            }
            Instr::Unmask => {
                self.unmask(code);
                Ok(())
            }
            Instr::Ask {
                side,
                destination,
                entry,
                subscript,
                position,
            } => self.ask(code, side, destination, entry, subscript, position),
            Instr::Put {
                side,
                entry,
                subscript,
                value,
                position,
            } => self.put(code, rule, side, entry, subscript, value, position),
            _ => self.step_registers(code, instr),
        }
    }
}
