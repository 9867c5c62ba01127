//! What a worker does with the messages of an exchange.

ghost use Rattle.std.specs.Prelude.{◌≡◌, ◌<◌, ◌≤◌, ◌+◌, ◌^◌, ◌||◌, ◌⊎◌, ℕ, length, false};
ghost use Rattle.superstep_machine.specs.declared.mark.HeaderMark.{HeaderMark as MarkOfHeader};
ghost use Rattle.superstep_machine.specs.declared.mark.HeaderMark.TheVariants as mark_is;
ghost use Rattle.superstep_machine.specs.Parts.{UniformPart};
ghost use Rattle.superstep_machine.specs.Run as machine;
ghost use Rattle.superstep_machine.specs.Run.{State, setting, ready, after};
ghost use Rattle.instruction_steps.specs.Views.{KeepsReserve};
ghost use Rattle.worker_steps.specs.Met.{IsVerifiedAt};
ghost use Rattle.worker_exchange.specs.declared.way.Way.TheVariants as way_is_one_of;
ghost use Rattle.worker_exchange.specs.Reached.{most_instructions};
ghost use Rattle.superstep_machine.specs.Purposes.{purpose_is};
ghost use Rattle.worker_exchange.specs.Shown.{way_is, is_stopped as spec_is_stopped, place_behind, IsShown, IsAtExchange};
ghost use Rattle.worker_exchange.specs.Equipped.{most_words, left, left_at, IsRunnable, IsEquipped, MayGoOn, IsAtStep};
ghost use Rattle.worker_exchange.specs.Received.{messages_to, mark_heard, key_heard, any_heard, is_marked};
ghost use Rattle.worker_exchange.specs.Taken.{StandsStill};
ghost use Rattle.worker_exchange.specs.Behind.{ForEachState, ShowsTaken, ShowsBehind, MayGoOnBehind, is_the_end};

use crate::column::Column;
use crate::deciding::decide;
use crate::hearing::{Heard, hear};
use crate::local::Local;
use crate::progress::{Progress, is_over, is_stopped};
use crate::replying::take_reply;
use crate::taking::take_send;
use crate::voting::take_vote;
use crate::way::Way;
use address_map::AddressMap;
use superstep_instructions::Code;
use superstep_machine::{HeaderMark, Key, Purpose};
use write_rules::WriteRule;

// Takes what the messages bring, by what the exchange is for.
fn take<R: WriteRule, M: AddressMap, C: Column>(
    local: &mut Local,
    code: &Code,
    rule: &R,
    map: &M,
    bound: u32,
    column: &C,
    active: bool,
)
    requires rule { R.WriteRule.rule rule.now ≡ code.now.rule }
    requires runnable { IsRunnable code.now (M.shape map.now) }
    requires at { IsAtStep code.now (M.shape map.now) bound local.old }
    requires column { length (C.came column.now) ≡ (M.shape map.now).parts }
    requires room { C.room column.now ≤ most_words code.now (M.shape map.now) }
    requires active { active ≡ any_heard (C.came column.now) }
    ensures shows { ShowsTaken code.now (M.shape map.now) bound (C.came column.now) local.old local.new }
    ensures equipped { ForEachState code.now (M.shape map.now) bound local.old (λ n s. IsEquipped code.now (M.shape map.now) local.new) }
    ensures verified { local.old.way ≡ way_is_one_of.On →
        IsVerifiedAt code.now (record local.new.steps { place = local.old.steps.place + 1 }) }
    ensures still { StandsStill local.old local.new }
{
    let _instructions = code.instructions();
    match local.purpose {
        Purpose::Send => take_send(local, rule, map, column),
        Purpose::Reply => take_reply(local, map, column),
        Purpose::Vote { destination } => take_vote(local, destination, active),
        Purpose::Close => {}
    }
}

// Stands behind the exchange, and decides by a key how it stands with the run. A put was held before it, or not, and so many statements had
// begun.
fn stand_behind(local: &mut Local, held: bool, count: u32, purpose: Purpose, key: Option<Key>)
    requires place { local.old.way ≡ way_is_one_of.On → local.old.steps.place + 1 < 2 ^ 32 }
    ensures way { (u : UniformPart) → machine.is_held u.put ≡ held → u.count ≡ count →
        way_is local.new.way ≡ machine.decided (purpose_is purpose) u key (way_is local.old.way) }
    ensures place { local.new.steps.place ≡ place_behind local.old.way local.old.steps.place }
    ensures same { local.new ≡ record local.old {
      steps = record local.old.steps { place = local.new.steps.place };
      way = local.new.way;
    } }
{
    if let Way::On = local.way {
        local.steps.place += 1;
    }
    local.way = decide(purpose, held, count, key, local.way);
}

// An exchange without a mark.
fn exchange<R: WriteRule, M: AddressMap, C: Column>(
    local: &mut Local,
    code: &Code,
    rule: &R,
    map: &M,
    bound: u32,
    column: &C,
    heard: Heard,
)
    requires rule { R.WriteRule.rule rule.now ≡ code.now.rule }
    requires runnable { IsRunnable code.now (M.shape map.now) }
    requires at { IsAtStep code.now (M.shape map.now) bound local.old }
    requires column { length (C.came column.now) ≡ (M.shape map.now).parts }
    requires room { C.room column.now ≤ most_words code.now (M.shape map.now) }
    requires clear { mark_heard (C.came column.now) ≡ mark_is.Clear }
    requires key { heard.key ≡ key_heard (C.came column.now) }
    requires active { heard.active ≡ any_heard (C.came column.now) }
    ensures shown { ShowsBehind code.now (M.shape map.now) bound (C.came column.now) local.old local.new }
    ensures going { MayGoOnBehind code.now (M.shape map.now) bound local.old local.new }
    ensures worker { local.new.steps.bank.worker ≡ local.old.steps.bank.worker }
    ensures output { local.new.steps.uniform.output ≡ local.old.steps.uniform.output }
    ensures reserve { KeepsReserve local.old.steps.uniform local.new.steps.uniform }
    ensures runs { spec_is_stopped local.new.way ≡ false }
    ensures left { machine.is_over (way_is local.new.way) ≡ false → left code.now bound local.new < left_at code.now bound local.old }
{
    let _instructions = code.instructions();
    let purpose = local.purpose;
    let held = local.steps.uniform.put.is_some();
    let count = local.steps.uniform.count;
    take(local, code, rule, map, bound, column, heard.active);
    stand_behind(local, held, count, purpose, heard.key);
}

/// What came in an exchange: a mark in any header stops the worker; else it takes what the messages bring, by what the exchange is for, and
/// by the least key that any header tells it is decided how it stands with its run. Says whether that goes on. One that has
/// stopped is left as it is.
pub fn receive<R: WriteRule, M: AddressMap, C: Column>(
    local: &mut Local,
    code: &Code,
    rule: &R,
    map: &M,
    bound: u32,
    column: &C,
) -> Progress
    requires rule { R.WriteRule.rule rule.now ≡ code.now.rule }
    requires runnable { IsRunnable code.now (M.shape map.now) }
    requires at { spec_is_stopped local.old.way ≡ false → IsAtStep code.now (M.shape map.now) bound local.old }
    requires column { length (C.came column.now) ≡ (M.shape map.now).parts }
    requires room { C.room column.now ≤ most_words code.now (M.shape map.now) }
    // For each state at whose exchange it stood, it shows the one behind it, by the messages that the column, whatever
    // it has, is read as.
    ensures shown { spec_is_stopped local.new.way ≡ false → (n : ℕ) (s : State) → most_instructions code.now bound < n →
        IsAtExchange (setting code.now (M.shape map.now) bound n) local.old.steps.bank.worker local.old s →
        IsShown (setting code.now (M.shape map.now) bound n) local.old.steps.bank.worker local.new
        (after (setting code.now (M.shape map.now) bound n) local.old.steps.bank.worker
        (ready (setting code.now (M.shape map.now) bound n) local.old.steps.bank.worker s)
        (messages_to code.now.rule (M.shape map.now) local.old.steps.bank.worker (purpose_is local.old.purpose) (C.came column.now))) }
    // Where the run isn't over, the worker may go on.
    ensures going { machine.is_over (way_is local.new.way) ≡ false → (n : ℕ) (s : State) → most_instructions code.now bound < n →
        IsAtExchange (setting code.now (M.shape map.now) bound n) local.old.steps.bank.worker local.old s →
        MayGoOn code.now (M.shape map.now) bound local.new }
    ensures worker { local.new.steps.bank.worker ≡ local.old.steps.bank.worker }
    ensures output { local.new.steps.uniform.output ≡ local.old.steps.uniform.output }
    ensures reserve { KeepsReserve local.old.steps.uniform local.new.steps.uniform }
    // It has stopped exactly where it had before, or a header has a mark.
    ensures stopped { spec_is_stopped local.new.way ≡ (spec_is_stopped local.old.way || is_marked (mark_heard (C.came column.now))) }
    // The mark by which it has stopped is its own, or else the worst that came.
    ensures mark { (mark : MarkOfHeader) → local.new.way ≡ way_is_one_of.Stopped mark →
        (local.old.way ≡ way_is_one_of.Stopped mark)
        ⊎ ((spec_is_stopped local.old.way ≡ false) × (mark_heard (C.came column.now) ≡ mark)) }
    // The answer is that the run is over exactly where the worker that it shows has come to its end, or it has stopped.
    ensures over { is_the_end result ≡ machine.is_over (way_is local.new.way) }
    // Where the run isn't over, fewer instructions and exchanges are left.
    ensures left { machine.is_over (way_is local.new.way) ≡ false → left code.now bound local.new < left_at code.now bound local.old }
{
    let heard = hear(column, map.modules() as usize);
    if !is_stopped(local.way) {
        match heard.mark {
            HeaderMark::Clear => exchange(local, code, rule, map, bound, column, heard),
            mark => local.way = Way::Stopped { mark },
        }
    }
    if is_over(local) {
        Progress::Over
    } else {
        Progress::GoOn
    }
}
