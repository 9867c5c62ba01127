//! A vote: whether a processor of the range is active.

ghost use Rattle.std.specs.Prelude.{◌≡◌, length};
ghost use Rattle.std.specs.List.{list_any, range_with_len};
ghost use Rattle.superstep_machine.specs.Steps as spec;
ghost use Rattle.flat_machine.specs.Flat as flat;
ghost use Rattle.flat_run.specs.Views.{own_of, flat_of, IsSized, AreSame};

use crate::machine::Machine;
use crate::processor::{ProcessorState, is_active};
use instruction_steps::put_number;
use pram_values::truth;
use superstep_instructions::Code;

fn any_active(processors: &[ProcessorState]) -> bool
    ensures { result ≡ list_any (λ v. spec.is_active (own_of processors.now v)) (range_with_len 0 (length processors.now)) }
{
    let mut active = false;
    let mut v = processors.len();
    'processors: while v > 0 {
        v -= 1;
        active = is_active(&processors[v]) || active;
    }
    active
}

/// What a vote does to the machine.
pub fn vote(code: &Code, machine: &mut Machine, destination: u16)
    requires { IsSized code.now machine.old }
    ensures sized { IsSized code.now machine.new }
    ensures same { AreSame (flat_of machine.new) (flat.after_vote destination (flat_of machine.old)) }
{
    let active = any_active(&machine.processors);
    let registers = machine.uniform.registers.as_mut_slice();
    put_number(registers, destination, truth(active));
}
