//! What came in a vote.

ghost use Rattle.std.specs.Prelude.{◌≡◌, ◌<◌, ◌+◌, ℕ, List, Some, length, slice_get};
ghost use Rattle.std.specs.List.{list_any};
ghost use Rattle.address_map.specs.Lawful.{Shape};
ghost use Rattle.superstep_instructions.specs.declared.instr.Instr.TheVariants as instr_is;
ghost use Rattle.superstep_instructions.specs.Code.{SuperstepCode};
ghost use Rattle.superstep_machine.specs.Setting.{Setting};
ghost use Rattle.superstep_machine.specs.Words.{Message};
ghost use Rattle.superstep_machine.specs.Worker.{Worker};
ghost use Rattle.superstep_machine.specs.Answering.{after_vote};
ghost use Rattle.bsp_verify.specs.WellFormed.{IsWellFormed};
ghost use Rattle.worker_steps.specs.Met.{IsVerifiedAt};
ghost use Rattle.worker_exchange.specs.Shown.{ShowsWorker};
ghost use Rattle.worker_exchange.specs.Equipped.{IsEquipped};
ghost use Rattle.worker_exchange.specs.Taken.{StandsStill};

use crate::local::Local;
use pram_values::truth;

/// What came in a vote: the register gets 1 if any worker has an active processor, else 0.
pub fn take_vote(local: &mut Local, destination: u16, active: bool)
    requires place { destination < length local.old.steps.uniform.registers.items }
    ensures shows { (t : Setting) (w : ℕ) (y : Worker) (messages : List Message) → list_any (λ (m : Message). m.active) messages ≡ active →
        ShowsWorker t w local.old y → ShowsWorker t w local.new (after_vote destination y messages) }
    ensures equipped { (code : SuperstepCode) (m : Shape) → IsEquipped code m local.old → IsEquipped code m local.new }
    ensures verified { (code : SuperstepCode) → IsWellFormed code → IsVerifiedAt code local.old.steps →
        slice_get code.instructions local.old.steps.place ≡ Some (instr_is.Vote destination) →
        IsVerifiedAt code (record local.new.steps { place = local.old.steps.place + 1 }) }
    ensures still { StandsStill local.old local.new }
{
    local.steps.uniform.registers[destination as usize] = truth(active);
}
