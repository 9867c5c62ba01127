//! Code with other instructions.

ghost use Rattle.std.specs.Prelude.{◌≤◌, length, IfOk};
ghost use Rattle.superstep_instructions.specs.Limits.{IsCode, most_registers, most_instructions};
ghost use Rattle.tidying.specs.Certificates.{IsLike};

use std::alloc::{AllocError, Global};
use superstep_instructions::{Code, Instr};

// Every code is within the limits.
fn within_limits(code: &Code)
    ensures { IsCode code.now }
{
    let _instructions = code.instructions();
}

/// Code with the header of another, so many registers of each side, and these instructions.
pub(crate) fn rebuilt(
    alloc: Global,
    code: &Code,
    uniform: u32,
    private: u32,
    instructions: &[Instr],
) -> Result<Code, AllocError>
    requires uniform { uniform ≤ most_registers }
    requires private { private ≤ most_registers }
    requires few { length instructions.now ≤ most_instructions }
    ensures { IfOk result (IsLike code.now) }
{
    within_limits(code);
    let layout = code.layout().copied(alloc)?;
    let mut left = Code::new(alloc, code.rule(), code.procs(), layout, uniform, private);
    for at in 0..instructions.len() {
        left.push(instructions[at])?;
    }
    Ok(left)
}
