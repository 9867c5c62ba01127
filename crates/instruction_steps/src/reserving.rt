//! Memory that is taken in advance.

ghost use Rattle.std.specs.Prelude.{OnOk};
ghost use Rattle.instruction_steps.specs.Views.{HasReserve, IsRoomier};

use crate::uniform::UniformState;
use std::alloc::AllocError;

/// Takes the memory by which the uniform part of verified code grows up to so many items of output, which is that for the items: it takes
/// none on the way any more. The error comes where memory was refused: nothing is said of the uniform part then.
pub fn reserve(u: &mut UniformState, items: usize) -> Result<(), AllocError>
    ensures reserved { OnOk result (HasReserve items u.new) }
    ensures same { OnOk result (IsRoomier u.old u.new) }
{
    u.output.reserve(items)?;
    u.reserved = true;
    Ok(())
}
