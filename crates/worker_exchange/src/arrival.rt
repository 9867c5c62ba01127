//! From one exchange up to the next.

ghost use Rattle.std.specs.Prelude.{◌≡◌, ◌≢◌, ◌≤◌, ◌<◌, ℕ, length, true, false, Some, OnOk, OnErr};
ghost use Rattle.address_map.specs.Lawful.{Shape};
ghost use Rattle.superstep_machine.specs.declared.mark.HeaderMark.{HeaderMark as MarkOfHeader};
ghost use Rattle.superstep_machine.specs.declared.mark.HeaderMark.TheVariants as mark_is;
ghost use Rattle.superstep_machine.specs.Setting.{Setting};
ghost use Rattle.superstep_machine.specs.Run.{State, setting, message_of, is_held};
ghost use Rattle.superstep_machine.specs.declared.key.Key.{Key as NotedKey};
ghost use Rattle.superstep_machine.specs.HeaderWords.{FitsKey};
ghost use Rattle.instruction_steps.specs.Views.{put_is, HasReserve, KeepsReserve};
ghost use Rattle.bsp_verify.specs.WellFormed.{IsWellFormed};
ghost use Rattle.worker_steps.specs.Fitted.{IsFitted};
ghost use Rattle.worker_steps.specs.Met.{IsVerifiedAt};
ghost use Rattle.worker_exchange.specs.Rows.{IsRow, written, message_at, words_in};
ghost use Rattle.worker_exchange.specs.declared.way.Way.TheVariants as way_is_one_of;
ghost use Rattle.superstep_machine.specs.declared.purpose.Purpose.TheVariants as purpose_is_one_of;
ghost use Rattle.worker_exchange.specs.Reached.{most_instructions};
ghost use Rattle.superstep_machine.specs.Purposes.{purpose_is};
ghost use Rattle.worker_exchange.specs.Shown.{is_stopped, marked, IsShown, IsAtExchange};
ghost use Rattle.worker_exchange.specs.Equipped.{most_words, left, left_at, AreBuffers, MayGoOn, IsAtStep};
ghost use Rattle.worker_steps.specs.Stretch.{PrintsPast};
ghost use Rattle.worker_exchange.specs.Arrived.{purpose_at as spec_purpose_at, way_at as spec_way_at, HasArrived, ComesPast, CanTell};
ghost use Rattle.worker_exchange.specs.MessagesWritten.{told, told_mark, IsWrittenFor};

use crate::fill::fill_replies;
use crate::local::Local;
use crate::row::Row;
use crate::telling::{any_active, key_fits, tell_alone, tell_mark, tell_send};
use crate::way::Way;
use address_map::AddressMap;
use instruction_steps::Moment;
use std::alloc::AllocError;
use superstep_instructions::Code;
use superstep_machine::{HeaderMark, Purpose};
use worker_steps::StretchEnd;
use write_rules::WriteRule;

// What the exchange is for at which a worker stops.
fn purpose_at(stop: StretchEnd, put: Option<Moment>) -> Purpose
    ensures { result ≡ spec_purpose_at stop (is_held (put_is put)) }
{
    match stop {
        StretchEnd::Send => Purpose::Send,
        StretchEnd::Reply => Purpose::Reply,
        StretchEnd::Vote { destination } => Purpose::Vote { destination },
        StretchEnd::Close { ended: _ } => match put {
            Some(_) => Purpose::Send,
            None => Purpose::Close,
        },
    }
}

// How it stands with its run then.
fn way_at(stop: StretchEnd, way: Way) -> Way
    ensures { result ≡ spec_way_at stop way }
{
    match stop {
        StretchEnd::Close { ended } => Way::Ending { ended },
        _ => way,
    }
}

impl Local {
    // Up to the exchange at which its code stops.
    fn go_on<R: WriteRule>(&mut self, code: &Code, rule: &R, bound: u32) -> Result<(), AllocError>
        requires rule { R.WriteRule.rule rule.now ≡ code.now.rule }
        requires formed { IsWellFormed code.now }
        requires fitted { IsFitted code.now self.old.steps }
        requires verified { IsVerifiedAt code.now self.old.steps }
        requires count { self.old.steps.uniform.count ≤ bound }
        requires on { self.old.way ≡ way_is_one_of.On }
        ensures arrived { OnOk result ((m : Shape) → MayGoOn code.now m bound self.old → HasArrived code.now m bound self.old self.new) }
        ensures reserve { OnOk result (KeepsReserve self.old.steps.uniform self.new.steps.uniform) }
        ensures refused { OnErr result ((items : ℕ) → HasReserve items self.old.steps.uniform →
            PrintsPast code.now bound self.old.steps items) }
    {
        let _instructions = code.instructions();
        let stop = self.steps.advance(code, rule, bound)?;
        self.purpose = purpose_at(stop, self.steps.uniform.put);
        self.way = way_at(stop, self.way);
        Ok(())
    }

    // Up to its next exchange.
    fn arrive<R: WriteRule, M: AddressMap>(
        &mut self,
        code: &Code,
        rule: &R,
        map: &M,
        bound: u32,
    ) -> Result<(), AllocError>
        requires rule { R.WriteRule.rule rule.now ≡ code.now.rule }
        requires going { MayGoOn code.now (M.shape map.now) bound self.old }
        ensures arrived { OnOk result (HasArrived code.now (M.shape map.now) bound self.old self.new) }
        ensures reserve { OnOk result (KeepsReserve self.old.steps.uniform self.new.steps.uniform) }
        ensures refused { OnErr result ((items : ℕ) → HasReserve items self.old.steps.uniform →
            ComesPast code.now (M.shape map.now) bound self.old items) }
    {
        let _map = map.modules();
        match self.way {
            Way::On => self.go_on(code, rule, bound),
            _ => {
                self.purpose = Purpose::Close;
                Ok(())
            }
        }
    }

    // Fills a row with its messages.
    fn tell<R: WriteRule, M: AddressMap, W: Row>(&mut self, rule: &R, map: &M, row: &mut W)
        requires can { CanTell (R.WriteRule.rule rule.now) (M.shape map.now) (W.room row.old) self.old }
        requires workers { length (W.filled row.old) ≡ (M.shape map.now).parts }
        ensures filled { IsRow (M.shape map.now).parts (told (R.WriteRule.rule rule.now) (M.shape map.now) self.old) (W.filled row.new) }
        ensures same { self.new ≡ record self.old { buffers = self.new.buffers } }
        ensures sent { self.new.buffers.sent ≡ words_in (W.filled row.new) }
        ensures keys { (key : NotedKey) → self.old.steps.key ≡ Some key → FitsKey key }
        ensures buffers { (most : ℕ) → AreBuffers (M.shape map.now).parts most self.old.buffers → AreBuffers (M.shape map.now).parts most
            self.new.buffers }
        ensures room { W.room row.new ≡ W.room row.old }
        ensures kept { W.kept row.old row.new }
    {
        let workers = map.modules() as usize;
        let key = self.steps.key;
        key_fits(key);
        let sent = match self.purpose {
            Purpose::Send => tell_send(rule, map, &self.steps, &mut self.buffers, row),
            Purpose::Reply => fill_replies(
                row,
                key,
                map,
                self.steps.bank.worker,
                self.asked.as_slice(),
                &self.cells,
                &mut self.buffers.reply,
            ),
            Purpose::Vote { destination: _ } => {
                tell_alone(row, workers, key, any_active(&self.steps))
            }
            Purpose::Close => tell_alone(row, workers, key, false),
        };
        self.buffers.sent = sent;
    }

    /// The worker stops by a mark, and each message of the row is that mark: memory was refused to it, or it came past its reserve.
    pub fn refuse<M: AddressMap, W: Row>(&mut self, map: &M, row: &mut W, mark: HeaderMark)
        requires workers { length (W.filled row.old) ≡ (M.shape map.now).parts }
        requires mark { mark ≢ mark_is.Clear }
        ensures filled { IsRow (M.shape map.now).parts (told_mark mark) (W.filled row.new) }
        // The row has the messages of every worker of a run that such a mark stops.
        ensures row { (t : Setting) (w : ℕ) (s : State) → IsRow (M.shape map.now).parts
            (λ j. written t.code.rule (message_of t w (marked self.new.way s) j)) (W.filled row.new) }
        // Each message is read as such by the worker that it is sent to.
        ensures read { (t : Setting) (w : ℕ) (s : State) (j : ℕ) → j < (M.shape map.now).parts →
            IsWrittenFor t.code.rule t.map j (purpose_is self.new.purpose) (message_of t w (marked self.new.way s) j)
            (message_at (W.filled row.new) j) }
        ensures way { self.new.way ≡ way_is_one_of.Stopped mark }
        ensures purpose { self.new.purpose ≡ purpose_is_one_of.Close }
        ensures steps { self.new.steps ≡ self.old.steps }
        ensures sent { self.new.buffers.sent ≡ words_in (W.filled row.new) }
        ensures room { W.room row.new ≡ W.room row.old }
        ensures kept { W.kept row.old row.new }
    {
        self.way = Way::Stopped { mark };
        self.purpose = Purpose::Close;
        self.buffers.sent = tell_mark(row, map.modules() as usize, mark);
    }

    /// Goes on up to the next exchange, and fills a row with the messages for it. Says what the exchange is for. Where memory is
    /// refused on the way, each message is a mark that says so, and the worker has stopped; memory is asked for only by items of output for
    /// which there is no room. It is asked of a worker that is neither stopped nor over.
    pub fn until_exchange<R: WriteRule, M: AddressMap, W: Row>(
        &mut self,
        code: &Code,
        rule: &R,
        map: &M,
        bound: u32,
        row: &mut W,
    ) -> Purpose
        requires rule { R.WriteRule.rule rule.now ≡ code.now.rule }
        requires going { MayGoOn code.now (M.shape map.now) bound self.old }
        requires workers { length (W.filled row.old) ≡ (M.shape map.now).parts }
        requires room { most_words code.now (M.shape map.now) ≤ W.room row.old }
        // For every state that it showed, a worker that hasn't stopped shows where the machine's worker stands at its
        // next exchange.
        ensures shown { is_stopped self.new.way ≡ false → (n : ℕ) (s : State) → most_instructions code.now bound < n →
            IsShown (setting code.now (M.shape map.now) bound n) self.old.steps.bank.worker self.old s →
            IsAtExchange (setting code.now (M.shape map.now) bound n) self.old.steps.bank.worker self.new s }
        // The row has that worker's messages, header and words, each with a mark if this one has stopped.
        ensures row { (n : ℕ) (s : State) → most_instructions code.now bound < n →
            IsShown (setting code.now (M.shape map.now) bound n) self.old.steps.bank.worker self.old s →
            IsRow (M.shape map.now).parts (λ j. written code.now.rule (message_of (setting code.now (M.shape map.now) bound n)
            self.old.steps.bank.worker (marked self.new.way s) j)) (W.filled row.new) }
        // Each message is read as such by the worker that it is sent to.
        ensures read { (n : ℕ) (s : State) (j : ℕ) → most_instructions code.now bound < n → j < (M.shape map.now).parts →
            IsShown (setting code.now (M.shape map.now) bound n) self.old.steps.bank.worker self.old s →
            IsWrittenFor code.now.rule (M.shape map.now) j (purpose_is self.new.purpose) (message_of (setting code.now (M.shape map.now) bound n)
            self.old.steps.bank.worker (marked self.new.way s) j) (message_at (W.filled row.new) j) }
        ensures at { is_stopped self.new.way ≡ false → IsAtStep code.now (M.shape map.now) bound self.new }
        ensures worker { is_stopped self.new.way ≡ false → self.new.steps.bank.worker ≡ self.old.steps.bank.worker }
        ensures fewer { is_stopped self.new.way ≡ false → left_at code.now bound self.new ≤ left code.now bound self.old }
        // The mark by which it stops is that of refused memory.
        ensures refused { (mark : MarkOfHeader) → self.new.way ≡ way_is_one_of.Stopped mark → mark ≡ mark_is.OutOfMemory }
        // Where there is room for so many items, a worker that stops has printed more, whether that room was taken in
        // advance or not.
        ensures past { is_stopped self.new.way ≡ true → (items : ℕ) → HasReserve items self.old.steps.uniform →
            ComesPast code.now (M.shape map.now) bound self.old items }
        ensures reserve { is_stopped self.new.way ≡ false → KeepsReserve self.old.steps.uniform self.new.steps.uniform }
        ensures purpose { result ≡ self.new.purpose }
        ensures sent { self.new.buffers.sent ≡ words_in (W.filled row.new) }
        ensures room { W.room row.new ≡ W.room row.old }
        ensures kept { W.kept row.old row.new }
    {
        let _instructions = code.instructions();
        match self.arrive(code, rule, map, bound) {
            Ok(()) => {
                self.tell(rule, map, row);
                self.purpose
            }
            Err(_) => {
                self.refuse(map, row, HeaderMark::OutOfMemory);
                Purpose::Close
            }
        }
    }
}
