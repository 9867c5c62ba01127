//! Code without the registers that no instruction names.

ghost use Rattle.std.specs.Prelude.{◌≡◌, ◌≤◌, IfOk};
ghost use Rattle.superstep_instructions.specs.Limits.{IsCode, most_registers};
ghost use Rattle.bsp_verify.specs.WellFormed.{IsWellFormed};
ghost use Rattle.renaming.specs.Renamed.{with_names};
ghost use Rattle.renaming.specs.Numbers.{AreNumbers, number_of};
ghost use Rattle.renaming.specs.Packed.{IsPacked, RunsAlike};

use crate::numbers::Numbers;
use crate::renamed::renamed;
use bsp_verify::{Verified, VerifyFault, verify};
use std::alloc::{AllocError, Global};
use superstep_instructions::{Code, Side};

// Every code is within the limits.
fn within_limits(code: &Code)
    ensures { IsCode code.now }
{
    let _instructions = code.instructions();
}

// The code with new numbers, and so many registers of each side.
fn numbered(
    alloc: Global,
    code: &Code,
    numbers: &Numbers,
    uniform: u32,
    private: u32,
) -> Result<Code, AllocError>
    requires numbers { AreNumbers numbers.now }
    requires uniform { uniform ≤ most_registers }
    requires private { private ≤ most_registers }
    ensures { IfOk result (λ left. left ≡ with_names (number_of numbers.now) uniform private code.now) }
{
    within_limits(code);
    let instructions = code.instructions();
    let layout = code.layout().copied(alloc)?;
    let mut left = Code::new(alloc, code.rule(), code.procs(), layout, uniform, private);
    for at in 0..instructions.len() {
        left.push(renamed(instructions[at], numbers))?;
    }
    Ok(left)
}

// The code whose registers have the numbers from 0 on.
fn packed(alloc: Global, code: &Code) -> Result<Code, AllocError>
    ensures { IfOk result (IsPacked code.now) }
{
    let instructions = code.instructions();
    let mut numbers = Numbers::new(alloc)?;
    numbers.give_all(Side::Private, instructions);
    let private = numbers.given;
    numbers.give_all(Side::Uniform, instructions);
    let uniform = numbers.given;
    numbered(alloc, code, &numbers, uniform, private)
}

/// The same code whose registers are numbered anew, from 0 on: the private ones that its instructions name come first, so that there are no
/// other private ones, and behind them the uniform ones that they name and that have no number yet. Its runs are those of the code. It
/// takes a copy of the code and 256 KiB, and the pass of the verifier. The error comes where memory was refused.
pub fn pack(alloc: Global, code: &Verified) -> Result<Verified, AllocError>
    // The answer is the code, its registers numbered anew, one to one, with a private register for each that an
    // instruction names and no other.
    ensures packed { IfOk result (IsPacked code.now) }
    // The answer has the same outcomes by as many exchanges, on every map and within every bound, and its workers have
    // printed as much before each.
    ensures alike { IfOk result (RunsAlike code.now) }
{
    let left = packed(alloc, code.code())?;
    match verify(alloc, left) {
        Ok(verified) => Ok(verified),
        Err((VerifyFault::OutOfMemory, _)) => Err(AllocError),
        Err((VerifyFault::NotVerified { .. }, _)) => unreachable!(),
    }
}
