//! Memory that is taken in advance.

ghost use Rattle.std.specs.Prelude.{◌≡◌, ℕ, OnOk};
ghost use Rattle.address_map.specs.Lawful.{Shape};
ghost use Rattle.superstep_instructions.specs.Code.{SuperstepCode};
ghost use Rattle.superstep_machine.specs.Setting.{Setting};
ghost use Rattle.superstep_machine.specs.Run.{State};
ghost use Rattle.instruction_steps.specs.Views.{HasReserve, IsRoomier};
ghost use Rattle.worker_exchange.specs.Shown.{IsShown};
ghost use Rattle.worker_exchange.specs.Equipped.{MayGoOn};

use crate::local::Local;
use instruction_steps::reserve;
use std::alloc::AllocError;

impl Local {
    /// Takes the memory by which the worker grows up to so many items of output. It shows what it showed. The error comes where memory was
    /// refused: nothing is said of the worker then.
    pub fn reserve(&mut self, items: usize) -> Result<(), AllocError>
        ensures reserved { OnOk result (HasReserve items self.new.steps.uniform) }
        ensures shown { OnOk result ((t : Setting) (w : ℕ) (s : State) → IsShown t w self.old s → IsShown t w self.new s) }
        ensures going { OnOk result ((code : SuperstepCode) (m : Shape) (bound : ℕ) → MayGoOn code m bound self.old →
            MayGoOn code m bound self.new) }
        ensures roomier { OnOk result (IsRoomier self.old.steps.uniform self.new.steps.uniform) }
        ensures same { OnOk result (self.new ≡ record self.old {
          steps = record self.old.steps { uniform = self.new.steps.uniform };
        }) }
    {
        reserve(&mut self.steps.uniform, items)
    }
}
