//! One worker's part of a run, at its seat.

ghost use Rattle.std.specs.Prelude.{◌≡◌, ◌+◌, ◌^◌, ◌<◌, ℕ, List, [], length, true, false};
ghost use Rattle.superstep_machine.specs.Run.{State, is_over as spec_is_over};
ghost use Rattle.worker_exchange.specs.Shown.{is_stopped, way_is};
ghost use Rattle.worker_exchange.specs.Equipped.{left, IsRunnable, MayGoOn};
ghost use Rattle.exchange_counts.specs.Tallies.{is_kept};
ghost use Rattle.worker_histories.specs.Shares.{Share};
ghost use Rattle.bsp_machine.specs.Workers.{IsBetween};
ghost use Rattle.workers.specs.Seating.{SameOwner};
ghost use Rattle.workers.specs.Worked.{IsSeatFor, IsSomewhere, HasExchanged, HasWorked};

use crate::gates::Gate;
use crate::hands::{ColumnHand, RowHand};
use address_map::AddressMap;
use bsp_machine::CountedWorker;
use std::sync::Wait;
use superstep_instructions::Code;
use turnstile::{RowSeat, Turnstile};
use write_rules::WriteRule;

// One exchange: the worker goes up to it and fills its row, crosses with the others, and takes the column that came.
fn exchange<R: Wait, W: WriteRule, M: AddressMap, G: Gate>(
    rt: &R,
    turnstile: &Turnstile,
    code: &Code,
    rule: &W,
    map: &M,
    bound: u32,
    gate: &G,
    seat: RowSeat,
    worker: &mut CountedWorker,
) -> RowSeat
    requires own { seat.table ≡ turnstile.now.table }
    requires rule { W.WriteRule.rule rule.now ≡ code.now.rule }
    requires runnable { IsRunnable code.now (M.shape map.now) }
    requires seat { IsSeatFor code.now (M.shape map.now) seat }
    requires going { MayGoOn code.now (M.shape map.now) bound worker.old.local }
    requires few { length seat.sent < 2 ^ 63 }
    ensures owner { SameOwner seat result }
    ensures exchanged { HasExchanged code.now (M.shape map.now) bound seat worker.old result worker.new }
    ensures left { spec_is_over (way_is worker.new.local.way) ≡ false →
        left code.now bound worker.new.local < left code.now bound worker.old.local }
{
    let statements = worker.local.steps.uniform.count;
    gate.pass(rt, seat.worker() as u32, seat.phase() + 1, statements);
    let mut hand = RowHand { seat };
    worker.until_exchange(code, rule, map, bound, &mut hand);
    let RowHand { seat } = hand;
    let column = ColumnHand::of(turnstile.cross(rt, seat), map.modules() as usize);
    worker.receive(code, rule, map, bound, &column);
    turnstile.turn(rt, column.seat)
}

/// A worker's part of a run: it goes on, exchange by exchange, until its run is over, which is where it has come to an end or was
/// stopped by a mark. It passes the gate before each exchange.
pub fn work<R: Wait, W: WriteRule, M: AddressMap, G: Gate>(
    rt: &R,
    turnstile: &Turnstile,
    code: &Code,
    rule: &W,
    map: &M,
    bound: u32,
    gate: &G,
    seat: RowSeat,
    worker: CountedWorker,
) -> (RowSeat, CountedWorker)
    requires own { seat.table ≡ turnstile.now.table }
    requires rule { W.WriteRule.rule rule.now ≡ code.now.rule }
    requires runnable { IsRunnable code.now (M.shape map.now) }
    requires seat { IsSeatFor code.now (M.shape map.now) seat }
    requires fresh { (seat.sent ≡ []) × (seat.received ≡ []) }
    requires somewhere { IsSomewhere code.now (M.shape map.now) bound seat.worker worker }
    requires runs { is_stopped worker.local.way ≡ false }
    // The seat is the same worker's.
    ensures owner { SameOwner seat result.0 }
    // The worker's run is over: it has come to its end, or a mark has stopped it.
    ensures over { spec_is_over (way_is result.1.local.way) ≡ true }
    ensures reserve { result.1.reserve ≡ worker.reserve }
    ensures kept { is_kept result.1.counts ≡ is_kept worker.counts }
    // From any states that it showed, the seat has a history of its own steps, whose end the worker shows and has
    // counted, or that a mark ended.
    ensures worked { (states : ℕ → State) (told : ℕ → List Share) →
        IsBetween code.now (M.shape map.now) bound states told seat.worker worker →
        HasWorked code.now (M.shape map.now) bound states told seat.worker result.0 result.1 }
{
    let _instructions = code.instructions();
    let mut seat = seat;
    let mut worker = worker;
    'exchanges: while !worker.is_over() {
        seat = exchange(
            rt,
            turnstile,
            code,
            rule,
            map,
            bound,
            gate,
            seat,
            &mut worker,
        );
    }
    (seat, worker)
}
