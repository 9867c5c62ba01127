//! What a worker's thread is told to do.

ghost use Rattle.std.specs.Prelude.{◌≡◌};
ghost use Rattle.workers.specs.Tasks.{IsReady, HasPlayed};

use crate::deed::Deed;
use crate::gates::Gate;
use crate::part::Part;
use crate::play::work;
use address_map::AddressMap;
use bsp_machine::CountedWorker;
use std::marker::Model;
use std::sync::Wait;
use superstep_instructions::Code;
use turnstile::{RowSeat, Turnstile};
use write_rules::{WriteRule, under};

/// A worker before the first instruction, its seat, and what all workers of its run share.
#[derive(Drop)]
pub(crate) struct Task<'a, M: AddressMap> {
    turnstile: &'a Turnstile,
    code: &'a Code,
    map: &'a M,
    bound: u32,
    seat: RowSeat,
    worker: CountedWorker,
}

impl<'a, M: AddressMap> Model for Task<'a, M> {
    ghost use Rattle.workers.specs.Tasks.{TaskState, IsReady};

    ghost Value = { TaskState M };

    ghost view = { λ t. record {
      run = record { turnstile = t.turnstile.now; code = t.code.now; map = t.map.now; bound = t.bound };
      seat = t.seat;
      worker = t.worker;
    } };

    ghost invariant = { λ t. IsReady M.shape (record {
      run = record { turnstile = t.turnstile.now; code = t.code.now; map = t.map.now; bound = t.bound };
      seat = t.seat;
      worker = t.worker;
    }) };
}

impl<'a, M: AddressMap> Task<'a, M> {
    /// The task of a worker at its seat.
    pub(crate) fn new(
        turnstile: &'a Turnstile,
        code: &'a Code,
        map: &'a M,
        bound: u32,
        seat: RowSeat,
        worker: CountedWorker,
    ) -> Task<'a, M>
        requires { IsReady M.shape (record {
          run = record { turnstile = turnstile.now; code = code.now; map = map.now; bound = bound };
          seat = seat;
          worker = worker;
        }) }
        ensures run { result.run ≡ record { turnstile = turnstile.now; code = code.now; map = map.now; bound = bound } }
        ensures seat { result.seat ≡ seat }
        ensures worker { result.worker ≡ worker }
    {
        Task {
            turnstile,
            code,
            map,
            bound,
            seat,
            worker,
        }
    }

    /// The seat of a task that nobody was told.
    pub(crate) fn into_seat(self) -> RowSeat
        ensures { result ≡ self.entry.seat }
    {
        let Task {
            turnstile: _,
            code: _,
            map: _,
            bound: _,
            seat,
            worker: _,
        } = self;
        seat
    }

    // The worker's part of the run under the rule of its code.
    pub(crate) fn work_by<R: Wait, W: WriteRule, G: Gate>(
        self,
        rt: &R,
        rule: &W,
        gate: &G,
    ) -> (RowSeat, CountedWorker)
        requires { W.WriteRule.rule rule.now ≡ self.run.code.rule }
        ensures { HasPlayed M.shape self.entry result.0 result.1 }
    {
        let Task {
            turnstile,
            code,
            map,
            bound,
            seat,
            worker,
        } = self;
        work(rt, turnstile, code, rule, map, bound, gate, seat, worker)
    }
}

impl<'a, M: AddressMap + Sync> Deed for Task<'a, M> {
    ghost use Rattle.workers.specs.Tasks.{HasPlayed};

    ghost done = { λ t played. HasPlayed M.shape t played.0 played.1 };

    fn work_off<R: Wait, G: Gate>(self, rt: &R, gate: &G) -> (RowSeat, CountedWorker) {
        let rule = self.code.rule();
        under(
            rule,
            Part {
                rt,
                gate,
                task: self,
            },
        )
    }
}
