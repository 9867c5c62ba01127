//! A worker that counts its exchanges.

ghost use Rattle.std.specs.Prelude.{◌≡◌, ◌<◌, ◌≤◌, ◌+◌, ◌^◌, ◌||◌, ◌⊎◌, ℕ, List, ℤ, length, true, false, Some, None, vec_capacity, ◌++◌};
ghost use Rattle.std.specs.Prelude.{◌∷◌, []};
ghost use Rattle.std.specs.Prelude.{IfOk, IfErr, OnOk, OnErr, nat_le};
ghost use Rattle.exchange_counts.specs.Tallies.{is_kept, made_of, room_of, rows_of};
ghost use Rattle.address_map.specs.Outcome.{IsWorkers};
ghost use Rattle.superstep_instructions.specs.Code.{SuperstepCode};
ghost use Rattle.superstep_machine.specs.declared.mark.HeaderMark.{HeaderMark as MarkOfHeader};
ghost use Rattle.superstep_machine.specs.Run.{State, is_over as spec_is_over, opening, setting};
ghost use Rattle.address_map.specs.Lawful.{Shape};
ghost use Rattle.bsp_verify.specs.WellFormed.{IsWellFormed};
ghost use Rattle.worker_exchange.specs.Rows.{WrittenMessage, words_in};
ghost use Rattle.worker_exchange.specs.declared.way.Way.TheVariants as way_is_one_of;
ghost use Rattle.worker_exchange.specs.Shown.{is_stopped as spec_is_stopped, way_is};
ghost use Rattle.worker_exchange.specs.Equipped.{most_words, left, left_at, IsRunnable, MayGoOn};
ghost use Rattle.worker_exchange.specs.Opened.{IsAccepted, IsRefusal};
ghost use Rattle.worker_exchange.specs.Reached.{most_instructions};
ghost use Rattle.worker_exchange.specs.Received.{mark_heard, is_marked};
ghost use Rattle.worker_histories.specs.Shares.{Share};
ghost use Rattle.bsp_machine.specs.Workers.{count_of, share_at, state_behind, HasItems, IsBetween, IsStanding, IsReady};
ghost use Rattle.bsp_machine.specs.Growing.{IsShortOfItems, IsFull};
ghost use Rattle.bsp_machine.specs.Reserves.{is_past as spec_is_past};
ghost use Rattle.bsp_machine.specs.Opening.{IsFresh};

use address_map::AddressMap;
use exchange_counts::{Count, Tally};
use run_options::Reserve;
use std::alloc::{AllocError, Global};
use superstep_instructions::Code;
use superstep_machine::HeaderMark;
use worker_exchange::{Column, Local, Row, RunRefusal, is_over, is_stopped, receive};
use write_rules::WriteRule;

/// A worker, what it counted of its exchanges so far, room for the items of its output, and the reserve that it was given, if any.
#[derive(Drop)]
pub struct CountedWorker {
    pub local: Local,
    pub counts: Tally,
    pub items: Vec<i64>,
    pub reserve: Option<Reserve>,
}

// How many words came together.
fn words_came<C: Column>(column: &C, workers: usize) -> u64
    requires column { length (C.came column.now) ≡ workers }
    requires few { workers ≤ 32 }
    requires room { C.room column.now < 2 ^ 32 }
    ensures { result ≡ words_in (C.came column.now) }
{
    let mut words = 0;
    let mut from = workers;
    'messages: while from > 0 {
        from -= 1;
        words += column.words(from).len() as u64;
    }
    words
}

// Counts an exchange, unless the worker has stopped at it.
fn count<C: Column>(local: &Local, counts: &mut Tally, column: &C, workers: usize)
    requires room { spec_is_stopped local.now.way ≡ false → made_of counts.old < room_of counts.old }
    requires column { length (C.came column.now) ≡ workers }
    requires few { workers ≤ 32 }
    requires short { C.room column.now < 2 ^ 32 }
    ensures counted { spec_is_over (way_is local.now.way) ≡ false → is_kept counts.old ≡ true →
        rows_of counts.new ≡ rows_of counts.old ++ (count_of local.now (words_in (C.came column.now)) ∷ []) }
    ensures made { spec_is_over (way_is local.now.way) ≡ false → made_of counts.new ≡ made_of counts.old + 1 }
    ensures room { room_of counts.new ≡ room_of counts.old }
    ensures kept { is_kept counts.new ≡ is_kept counts.old }
{
    if is_over(local) {
        return;
    }
    let purpose = local.purpose;
    let sent = local.buffers.sent;
    let received = words_came(column, workers);
    counts.note(Count {
        purpose,
        sent,
        received,
    });
}

// Room for so many items. Memory is asked for where there is less.
fn keep_room(items: &mut Vec<i64>, most: usize) -> Result<(), AllocError>
    ensures none { items.new.items ≡ items.old.items }
    ensures room { OnOk result (most ≤ vec_capacity items.new) }
    ensures refused { OnErr result (vec_capacity items.old < length items.old.items + most) }
{
    items.reserve(most)?;
    Ok(())
}

impl CountedWorker {
    /// One of the workers of a run before the first instruction, with nothing counted and without a reserve. It takes all the memory of a
    /// run but for that by which its output grows, with the room for its items, and its counts: nothing else asks for any on the way. With
    /// `kept` it keeps what it counts at each exchange; without, only how many it has made, and no exchange takes memory.
    /// Asked for a worker below their number; refused as the run is.
    pub fn new<M: AddressMap>(
        alloc: Global,
        code: &Code,
        map: &M,
        workers: u32,
        worker: u32,
        input: &[i64],
        kept: bool,
    ) -> Result<CountedWorker, RunRefusal>
        requires formed { IsWellFormed code.now }
        requires worker { IsWorkers workers → worker < workers }
        // The run is refused for the first of E13, E12 and E11 that holds, in this order, and for want of memory only
        // where none does.
        ensures refused { IfErr result (IsRefusal code.now (M.shape map.now) workers input.now) }
        // There is an answer only where none of E13, E12 and E11 holds.
        ensures accepted { IfOk result (λ x. IsAccepted code.now (M.shape map.now) workers input.now) }
        // It is that worker before the first instruction, within every bound, with nothing counted.
        ensures fresh { IfOk result (IsFresh code.now (M.shape map.now) input.now worker) }
        ensures unreserved { IfOk result (λ x. x.reserve ≡ None) }
        ensures kept { IfOk result (λ x. is_kept x.counts ≡ kept) }
        // It shows the opening state within every bound, and has counted nothing.
        ensures opens { IfOk result (λ x. (bound : ℕ) → IsBetween code.now (M.shape map.now) bound
            (λ n. opening (setting code.now (M.shape map.now) bound n) input.now worker) (λ n. []) worker x) }
        // It hasn't stopped.
        ensures runs { IfOk result (λ x. spec_is_stopped x.local.way ≡ false) }
    {
        let local = Local::new(alloc, code, map, workers, worker, input)?;
        let counts = Tally::new(alloc, kept);
        let items = Vec::new(alloc);
        Ok(CountedWorker {
            local,
            counts,
            items,
            reserve: None,
        })
    }

    /// Takes all the memory that the rest of its run wants, for so many items of output and so many exchanges: behind it the worker takes
    /// none, and stops where it comes past that. It shows what it showed. The error comes where memory was refused: nothing is said of the
    /// worker then.
    pub fn reserve(&mut self, reserve: Reserve) -> Result<(), AllocError>
        ensures given { OnOk result (self.new.reserve ≡ Some reserve) }
        ensures fresh { OnOk result ((code : SuperstepCode) (m : Shape) (input : List ℤ) (w : ℕ) → IsFresh code m input w self.old →
            IsFresh code m input w self.new) }
        ensures between { OnOk result ((code : SuperstepCode) (m : Shape) (bound : ℕ) (states : ℕ → State) (told : ℕ → List Share) (w : ℕ) →
            IsBetween code m bound states told w self.old → IsBetween code m bound states told w self.new) }
        ensures going { OnOk result ((code : SuperstepCode) (m : Shape) (bound : ℕ) → MayGoOn code m bound self.old.local →
            MayGoOn code m bound self.new.local) }
        ensures way { OnOk result (self.new.local.way ≡ self.old.local.way) }
        ensures kept { OnOk result (is_kept self.new.counts ≡ is_kept self.old.counts) }
    {
        self.counts.reserve(reserve.exchanges as usize)?;
        self.items.reserve(reserve.items as usize)?;
        self.local.reserve(reserve.items as usize)?;
        self.reserve = Some(reserve);
        Ok(())
    }

    // Whether it has stopped, or is past a reserve at its next exchange.
    fn is_past(&self, reserve: Reserve) -> bool
        ensures { result ≡ (spec_is_stopped self.now.local.way || spec_is_past reserve (length self.now.local.steps.uniform.output.items)
            (made_of self.now.counts) || nat_le (room_of self.now.counts) (made_of self.now.counts)) }
    {
        let printed = self.local.steps.uniform.output.len();
        let made = self.counts.made();
        let past = printed > reserve.items as usize || made >= reserve.exchanges as u64;
        // There is room to count all exchanges of a reserve, so that the last test never decides.
        is_stopped(self.local.way) || past || made >= self.counts.room()
    }

    // Goes on up to its next exchange, where its reserve has the memory for that.
    fn go_on_reserved<R: WriteRule, M: AddressMap, W: Row>(
        &mut self,
        code: &Code,
        rule: &R,
        map: &M,
        bound: u32,
        row: &mut W,
        reserve: Reserve,
    )
        requires rule { R.WriteRule.rule rule.now ≡ code.now.rule }
        requires going { MayGoOn code.now (M.shape map.now) bound self.old.local }
        requires workers { length (W.filled row.old) ≡ (M.shape map.now).parts }
        requires room { most_words code.now (M.shape map.now) ≤ W.room row.old }
        requires reserve { self.old.reserve ≡ Some reserve }
        ensures ready { IsReady code.now (M.shape map.now) bound self.new }
        ensures at { (states : ℕ → State) (told : ℕ → List Share) (w : ℕ) →
            IsBetween code.now (M.shape map.now) bound states told w self.old →
            IsStanding code.now (M.shape map.now) bound states told w self.new (W.filled row.new) }
        ensures fewer { spec_is_stopped self.new.local.way ≡ false →
            left_at code.now bound self.new.local ≤ left code.now bound self.old.local }
        ensures reserve { self.new.reserve ≡ self.old.reserve }
        ensures kept_rows { is_kept self.new.counts ≡ is_kept self.old.counts }
        ensures room { W.room row.new ≡ W.room row.old }
        ensures kept { W.kept row.old row.new }
    {
        let _purpose = self.local.until_exchange(code, rule, map, bound, row);
        if self.is_past(reserve) {
            self.local.refuse(map, row, HeaderMark::OutOfReserve);
        }
    }

    // Goes on up to its next exchange, where there is room to count it and no reserve.
    fn go_on<R: WriteRule, M: AddressMap, W: Row>(
        &mut self,
        code: &Code,
        rule: &R,
        map: &M,
        bound: u32,
        row: &mut W,
    )
        requires rule { R.WriteRule.rule rule.now ≡ code.now.rule }
        requires going { MayGoOn code.now (M.shape map.now) bound self.old.local }
        requires workers { length (W.filled row.old) ≡ (M.shape map.now).parts }
        requires room { most_words code.now (M.shape map.now) ≤ W.room row.old }
        requires count { made_of self.old.counts < room_of self.old.counts }
        requires reserve { self.old.reserve ≡ None }
        ensures full { spec_is_stopped self.new.local.way ≡ true → (states : ℕ → State) (told : ℕ → List Share) (w n : ℕ) →
            IsBetween code.now (M.shape map.now) bound states told w self.old → most_instructions code.now bound < n →
            IsShortOfItems code.now (M.shape map.now) bound (states n) w n self.old }
        ensures ready { IsReady code.now (M.shape map.now) bound self.new }
        ensures at { (states : ℕ → State) (told : ℕ → List Share) (w : ℕ) →
            IsBetween code.now (M.shape map.now) bound states told w self.old →
            IsStanding code.now (M.shape map.now) bound states told w self.new (W.filled row.new) }
        ensures fewer { spec_is_stopped self.new.local.way ≡ false →
            left_at code.now bound self.new.local ≤ left code.now bound self.old.local }
        ensures reserve { self.new.reserve ≡ self.old.reserve }
        ensures kept_rows { is_kept self.new.counts ≡ is_kept self.old.counts }
        ensures room { W.room row.new ≡ W.room row.old }
        ensures kept { W.kept row.old row.new }
    {
        let _purpose = self.local.until_exchange(code, rule, map, bound, row);
        let most = self.local.steps.uniform.output.len();
        match keep_room(&mut self.items, most) {
            Ok(()) => {}
            Err(_) => self.local.refuse(map, row, HeaderMark::OutOfMemory),
        }
    }

    /// Goes on up to its next exchange, and fills a row with the messages for it. Without a reserve it makes room to count that exchange,
    /// and for the items of its output: where that is refused, the worker stops; nothing else on the way asks for memory. With a reserve it
    /// takes none, and stops where it comes past that.
    pub fn until_exchange<R: WriteRule, M: AddressMap, W: Row>(
        &mut self,
        code: &Code,
        rule: &R,
        map: &M,
        bound: u32,
        row: &mut W,
    )
        requires rule { R.WriteRule.rule rule.now ≡ code.now.rule }
        requires going { MayGoOn code.now (M.shape map.now) bound self.old.local }
        requires workers { length (W.filled row.old) ≡ (M.shape map.now).parts }
        requires room { most_words code.now (M.shape map.now) ≤ W.room row.old }
        // If it hasn't stopped it stands at an exchange, and has room to count it.
        ensures ready { IsReady code.now (M.shape map.now) bound self.new }
        // It stands where the states that it showed come to, with their messages, all marked if it has stopped; with a
        // reserve it stops exactly past that.
        ensures at { (states : ℕ → State) (told : ℕ → List Share) (w : ℕ) →
            IsBetween code.now (M.shape map.now) bound states told w self.old →
            IsStanding code.now (M.shape map.now) bound states told w self.new (W.filled row.new) }
        // Without a reserve it stops only where it had no room to count the exchange, or for all items printed up to
        // there.
        ensures full { self.old.reserve ≡ None → spec_is_stopped self.new.local.way ≡ true →
            (states : ℕ → State) (told : ℕ → List Share) (w n : ℕ) →
            IsBetween code.now (M.shape map.now) bound states told w self.old → most_instructions code.now bound < n →
            IsFull code.now (M.shape map.now) bound (states n) w n self.old }
        // No more instructions and exchanges are left than before.
        ensures fewer { spec_is_stopped self.new.local.way ≡ false →
            left_at code.now bound self.new.local ≤ left code.now bound self.old.local }
        ensures reserve { self.new.reserve ≡ self.old.reserve }
        ensures kept_rows { is_kept self.new.counts ≡ is_kept self.old.counts }
        ensures room { W.room row.new ≡ W.room row.old }
        ensures kept { W.kept row.old row.new }
    {
        match self.reserve {
            Some(reserve) => self.go_on_reserved(code, rule, map, bound, row, reserve),
            None => match self.counts.reserve(1) {
                Ok(()) => self.go_on(code, rule, map, bound, row),
                Err(_) => self.local.refuse(map, row, HeaderMark::OutOfMemory),
            },
        }
    }

    /// Takes what came in the exchange, and counts it. Behind it the worker shows the state that the messages lead to, as they are read
    /// for it; it has stopped where it had, or where one of them has a mark: by its own mark, or else by the worst of those.
    pub fn receive<R: WriteRule, M: AddressMap, C: Column>(
        &mut self,
        code: &Code,
        rule: &R,
        map: &M,
        bound: u32,
        column: &C,
    )
        requires rule { R.WriteRule.rule rule.now ≡ code.now.rule }
        requires runnable { IsRunnable code.now (M.shape map.now) }
        requires ready { IsReady code.now (M.shape map.now) bound self.old }
        requires column { length (C.came column.now) ≡ (M.shape map.now).parts }
        requires room { C.room column.now ≤ most_words code.now (M.shape map.now) }
        // It has stopped exactly where it had before, or a header has a mark.
        ensures stopped { spec_is_stopped self.new.local.way ≡ (spec_is_stopped self.old.local.way || is_marked
            (mark_heard (C.came column.now))) }
        // The mark by which it has stopped is its own, or else the worst that came.
        ensures mark { (mark : MarkOfHeader) → self.new.local.way ≡ way_is_one_of.Stopped mark →
            (self.old.local.way ≡ way_is_one_of.Stopped mark)
            ⊎ ((spec_is_stopped self.old.local.way ≡ false) × (mark_heard (C.came column.now) ≡ mark)) }
        ensures reserve { self.new.reserve ≡ self.old.reserve }
        ensures kept_rows { is_kept self.new.counts ≡ is_kept self.old.counts }
        // It shows the states that the messages lead to, as they are read for it, and has counted the exchange.
        ensures behind { (states : ℕ → State) (told : ℕ → List Share) (w : ℕ) (row : List WrittenMessage) →
            IsStanding code.now (M.shape map.now) bound states told w self.old row →
            IsBetween code.now (M.shape map.now) bound
            (λ n. state_behind code.now (M.shape map.now) bound w self.old (C.came column.now) (states n) n)
            (λ n. told n ++ share_at self.old row (C.came column.now) ∷ []) w self.new }
        // Where the run isn't over, fewer instructions and exchanges are left.
        ensures left { spec_is_over (way_is self.new.local.way) ≡ false →
            left code.now bound self.new.local < left_at code.now bound self.old.local }
    {
        let _instructions = code.instructions();
        count(
            &self.local,
            &mut self.counts,
            column,
            map.modules() as usize,
        );
        let _progress = receive(&mut self.local, code, rule, map, bound, column);
    }

    /// Whether its run is over: it has come to an end, or it has stopped.
    pub fn is_over(&self) -> bool
        ensures { result ≡ spec_is_over (way_is self.now.local.way) }
    {
        is_over(&self.local)
    }
}
