//! What came in a reply: the awaited reads get their values.

ghost use Rattle.std.specs.Prelude.{◌≡◌, ◌+◌, ℕ, Some, [], length, map as each, vec_capacity, slice_get};
ghost use Rattle.std.specs.List.{AllByRecursion};
ghost use Rattle.superstep_instructions.specs.declared.instr.Instr.TheVariants as instr_is;
ghost use Rattle.superstep_instructions.specs.Code.{SuperstepCode};
ghost use Rattle.superstep_machine.specs.Worker.{Worker};
ghost use Rattle.superstep_machine.specs.Answering.{after_reply};
ghost use Rattle.superstep_machine.specs.Run.{setting, Replies};
ghost use Rattle.bsp_verify.specs.WellFormed.{IsWellFormed};
ghost use Rattle.combining.specs.AllModules.{column as column_at};
ghost use Rattle.combining.specs.Asked.{IsAskBelow};
ghost use Rattle.worker_bank.specs.Bank.{IsBank};
ghost use Rattle.worker_steps.specs.Fitted.{AreColumns};
ghost use Rattle.worker_steps.specs.Met.{IsVerifiedAt};
ghost use Rattle.worker_exchange.specs.Sends.{words_of};
ghost use Rattle.worker_exchange.specs.Shown.{ShowsWorker};
ghost use Rattle.worker_exchange.specs.Equipped.{AwaitsAnswers, IsEquipped};
ghost use Rattle.worker_exchange.specs.Received.{messages_to};
ghost use Rattle.worker_exchange.specs.Taken.{StandsStill};

use crate::answering::answer_worker;
use crate::column::Column;
use crate::local::Local;
use crate::parts::word_parts;
use address_map::AddressMap;

// No worker's asks are kept any more.
fn forget(asked: &mut [Vec<u64>])
    ensures none { (j : ℕ) → column_at (words_of asked.new) j ≡ [] }
    ensures rooms { each vec_capacity asked.new ≡ each vec_capacity asked.old }
{
    'workers: for j in 0..asked.len() {
        asked[j].clear();
    }
}

/// What came in a reply: each awaited read gets the value that came for its cell, in the uniform part and in each processor that asked, and
/// the asks of the other workers are answered.
pub fn take_reply<M: AddressMap, C: Column>(local: &mut Local, map: &M, column: &C)
    requires column { length (C.came column.now) ≡ (M.shape map.now).parts }
    requires bank { IsBank local.old.steps.bank }
    requires columns { AreColumns local.old.steps.bank.masks.most local.old.steps.awaited.items }
    requires values { length local.old.values.items ≡ local.old.steps.bank.masks.most }
    requires awaits { AwaitsAnswers (M.shape map.now) local.old }
    requires below { AllByRecursion (IsAskBelow (M.shape map.now).count) local.old.sent.held }
    ensures shows { (code : SuperstepCode) (bound n : ℕ) (y : Worker) →
        ShowsWorker (setting code (M.shape map.now) bound n) local.old.steps.bank.worker local.old y →
        ShowsWorker (setting code (M.shape map.now) bound n) local.old.steps.bank.worker local.new
        (after_reply (setting code (M.shape map.now) bound n) y
        (messages_to code.rule (M.shape map.now) local.old.steps.bank.worker Replies (C.came column.now))) }
    ensures equipped { (code : SuperstepCode) → IsEquipped code (M.shape map.now) local.old → IsEquipped code (M.shape map.now) local.new }
    ensures verified { (code : SuperstepCode) → IsWellFormed code → IsVerifiedAt code local.old.steps →
        slice_get code.instructions local.old.steps.place ≡ Some instr_is.Reply →
        IsVerifiedAt code (record local.new.steps { place = local.old.steps.place + 1 }) }
    ensures still { StandsStill local.old local.new }
{
    let workers = map.modules() as usize;
    let mut replies: [&[u64]; 32] = [&[]; 32];
    word_parts(column, workers, &mut replies);
    local.sent.take_replies(map, &replies[..workers]);
    answer_worker(&mut local.steps, &local.sent, &mut local.values);
    local.sent.clear();
    forget(local.asked.as_mut_slice());
}
