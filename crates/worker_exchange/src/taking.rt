//! What was held is on its way, and what others ask is kept.

ghost use Rattle.std.specs.Prelude.{◌≡◌, ◌<◌, ◌≤◌, ◌+◌, ℕ, [], Some, length, map as each, vec_capacity, slice_get};
ghost use Rattle.std.specs.List.{AllByRecursion};
ghost use Rattle.superstep_instructions.specs.declared.instr.Instr.TheVariants as instr_is;
ghost use Rattle.superstep_instructions.specs.Code.{SuperstepCode};
ghost use Rattle.superstep_machine.specs.Worker.{Worker};
ghost use Rattle.superstep_machine.specs.Sending.{asks_held, after_send};
ghost use Rattle.superstep_machine.specs.Run.{setting, Sends};
ghost use Rattle.bsp_verify.specs.WellFormed.{IsWellFormed};
ghost use Rattle.combining.specs.Adding.{unanswered};
ghost use Rattle.combining.specs.Asked.{IsAskBelow};
ghost use Rattle.worker_steps.specs.Met.{IsVerifiedAt};
ghost use Rattle.worker_exchange.specs.Shown.{ShowsWorker};
ghost use Rattle.worker_exchange.specs.Equipped.{IsEquipped};
ghost use Rattle.worker_exchange.specs.Received.{messages_to};
ghost use Rattle.superstep_machine.specs.HeaderWords.{read_header};
ghost use Rattle.superstep_machine.specs.WordReading.{ask_part};
ghost use Rattle.combining.specs.AllModules.{column as column_at, room_at};
ghost use Rattle.worker_exchange.specs.Rows.{message_at};
ghost use Rattle.worker_exchange.specs.Sends.{words_of};
ghost use Rattle.worker_exchange.specs.Taken.{IsSentPart, IsSentWorker, StandsStill};

use crate::column::Column;
use crate::copying::put_words;
use crate::local::Local;
use crate::parts::asks_of;
use crate::settling::settle;
use address_map::AddressMap;
use combining::Asks;
use instruction_steps::UniformState;
use std::mem;
use superstep_machine::{Key, MessageHeader, least};
use worker_steps::WorkerState;
use write_rules::WriteRule;

// The reads that were held are awaited, and no put is held.
fn send_uniform(u: &mut UniformState)
    ensures { IsSentPart u.old u.new }
{
    mem::swap(&mut u.asks, &mut u.awaited);
    u.asks.clear();
    u.put = None;
}

/// Holds nothing any more: the asks go to those that were sent. The key is the least of the worker's own and of what was noted.
pub(crate) fn send_worker(steps: &mut WorkerState, sent: &mut Asks, noted: Option<Key>)
    ensures steps { IsSentWorker steps.old steps.new noted }
    ensures sent { sent.new ≡ steps.old.asks }
    ensures room { steps.new.asks.room ≡ sent.old.room }
{
    send_uniform(&mut steps.uniform);
    mem::swap(&mut steps.asked, &mut steps.awaited);
    mem::swap(&mut steps.asks, sent);
    steps.asks.clear();
    steps.puts.clear();
    steps.key = least(steps.key, noted);
}

/// Keeps the words of the asks of each message.
pub(crate) fn keep_asks<R: WriteRule, C: Column>(rule: &R, column: &C, asked: &mut [Vec<u64>])
    requires workers { length (C.came column.now) ≡ length asked.old }
    requires room { (j : ℕ) → j < length asked.old → length (message_at (C.came column.now) j).words ≤ room_at
        (each vec_capacity asked.old) j }
    ensures words { (j : ℕ) → j < length asked.old → column_at (words_of asked.new) j
        ≡ ask_part (R.WriteRule.rule rule.now) (read_header (message_at (C.came column.now) j).header)
        (message_at (C.came column.now) j).words }
    ensures rooms { each vec_capacity asked.new ≡ each vec_capacity asked.old }
{
    'messages: for j in 0..asked.len() {
        let header = MessageHeader::from_words(column.header(j));
        let words = asks_of(rule, header, column.words(j));
        put_words(words, &mut asked[j]);
    }
}

/// What came in a send: the puts are merged into the cells of the worker's module, what others ask is kept, and what the worker held is on
/// its way.
pub fn take_send<R: WriteRule, M: AddressMap, C: Column>(
    local: &mut Local,
    rule: &R,
    map: &M,
    column: &C,
)
    requires part { local.old.steps.bank.worker < (M.shape map.now).parts }
    requires cells { length local.old.cells ≡ (M.shape map.now).width local.old.steps.bank.worker }
    requires column { length (C.came column.now) ≡ (M.shape map.now).parts }
    requires few { length local.old.steps.uniform.asks.items ≤ 8 }
    requires asked { length local.old.asked.items ≡ (M.shape map.now).parts }
    requires room { (j : ℕ) → j < (M.shape map.now).parts → length (message_at (C.came column.now) j).words
        ≤ room_at (each vec_capacity local.old.asked.items) j }
    ensures shows { (code : SuperstepCode) (bound n : ℕ) (y : Worker) → R.WriteRule.rule rule.now ≡ code.rule →
        ShowsWorker (setting code (M.shape map.now) bound n) local.old.steps.bank.worker local.old y →
        local.old.steps.asks.held ≡ each unanswered (asks_held y) →
        ShowsWorker (setting code (M.shape map.now) bound n) local.old.steps.bank.worker local.new
        (after_send (setting code (M.shape map.now) bound n) local.old.steps.bank.worker y
        (messages_to code.rule (M.shape map.now) local.old.steps.bank.worker Sends (C.came column.now))) }
    ensures equipped { (code : SuperstepCode) → R.WriteRule.rule rule.now ≡ code.rule →
        AllByRecursion (IsAskBelow (M.shape map.now).count) local.old.steps.asks.held →
        IsEquipped code (M.shape map.now) local.old → IsEquipped code (M.shape map.now) local.new }
    ensures verified { (code : SuperstepCode) → IsWellFormed code → IsVerifiedAt code local.old.steps →
        slice_get code.instructions local.old.steps.place ≡ Some instr_is.Send →
        IsVerifiedAt code (record local.new.steps { place = local.old.steps.place + 1 }) }
    ensures still { StandsStill local.old local.new }
{
    let part = local.steps.bank.worker;
    let noted = settle(
        rule,
        map,
        part,
        column,
        &local.steps.uniform,
        &mut local.cells,
    );
    keep_asks(rule, column, local.asked.as_mut_slice());
    send_worker(&mut local.steps, &mut local.sent, noted);
}
