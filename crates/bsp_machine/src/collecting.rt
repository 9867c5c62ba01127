//! What workers come to whose run is over.

ghost use Rattle.std.specs.Prelude.{◌≡◌, ◌<◌, ℕ, List, ℤ, Option, Some, length, slice_get, slice_set, true, IfOk, IfErr, IsSome};
ghost use Rattle.write_rules.specs.Verdict.{verdict_of};
ghost use Rattle.superstep_machine.specs.Run.{IsBspOutcome};
ghost use Rattle.worker_exchange.specs.Equipped.{IsRunnable};
ghost use Rattle.bsp_machine.specs.declared.counted.CountedWorker.{CountedWorker as Counted};
ghost use Rattle.run_options.specs.declared.reserve.Reserve.{Reserve as Given};
ghost use Rattle.bsp_machine.specs.Reserves.{refusal_by as spec_refusal_by, refusal_for, AreGiven};
ghost use Rattle.bsp_machine.specs.Workers.{AreKept};
ghost use Rattle.bsp_machine.specs.Opening.{IsRoom};
ghost use Rattle.bsp_machine.specs.Ended.{AreExchanges, AreRunning, HaveRun, IsFirstOver, IsFirstStopped, IsFirstUnstopped};

use crate::columns::counts_in;
use crate::counted::CountedWorker;
use crate::end_room::EndRoom;
use crate::outcome::outcome;
use address_map::AddressMap;
use exchange_counts::Counts;
use std::mem;
use superstep_instructions::Code;
use superstep_machine::HeaderMark;
use worker_exchange::{RunRefusal, Way};
use write_rules::Outcome;

// Takes worker 0's room for items.
fn take_items(workers: &mut Vec<CountedWorker>, items: &mut Vec<i64>)
    requires some { 0 < length workers.old.items }
    ensures items { (x : Counted) → slice_get workers.old.items 0 ≡ Some x → items.new ≡ x.items }
    ensures left { (x : Counted) → slice_get workers.old.items 0 ≡ Some x →
        workers.new.items ≡ slice_set workers.old.items 0 (record x { items = items.old }) }
    ensures count { length workers.new.items ≡ length workers.old.items }
{
    mem::swap(&mut workers[0].items, items);
}

// Why workers have stopped, as the way of the first says.
fn refusal_by(way: Way) -> RunRefusal
    ensures { result ≡ spec_refusal_by way }
{
    match way {
        Way::Stopped {
            mark: HeaderMark::OutOfReserve,
        } => RunRefusal::OutOfReserve,
        _ => RunRefusal::OutOfMemory,
    }
}

/// What the workers of one run come to, in their order, whose run is over, and the exchanges that they counted, if each of them has kept
/// those. It takes no memory. An error
/// comes exactly where they have stopped, all at one exchange or none: `OutOfReserve` where they came past the reserve that they were
/// given, `OutOfMemory` where memory was refused to one of them.
pub fn collect<M: AddressMap>(
    code: &Code,
    map: &M,
    mut workers: Vec<CountedWorker>,
    room: EndRoom,
) -> Result<(Outcome, Option<Counts>), RunRefusal>
    requires runnable { IsRunnable code.now (M.shape map.now) }
    requires workers { length workers.items ≡ (M.shape map.now).parts }
    requires run { HaveRun code.now (M.shape map.now) workers.items }
    requires over { IsFirstOver workers.items }
    requires room { IsRoom code.now (M.shape map.now) room }
    // The refusal is the one of the mark by which worker 0 has stopped.
    ensures refused { IfErr result (λ refusal. (x : Counted) → slice_get workers.items 0 ≡ Some x → refusal ≡ spec_refusal_by x.local.way) }
    // With a reserve the refusal is that the run came past it, and without one that memory was refused.
    ensures given { (reserve : Option Given) → AreGiven reserve workers.items → IfErr result (λ refusal. refusal ≡ refusal_for reserve) }
    // A refusal is answered only where the workers have stopped.
    ensures stopped { IfErr result (λ refusal. IsFirstStopped workers.items) }
    // An outcome is answered only where the workers haven't stopped.
    ensures unstopped { IfOk result (λ found. IsFirstUnstopped workers.items) }
    // The outcome of workers whose run is over is that of the machine's definition.
    ensures outcome { IfOk result (λ found. (bound : ℕ) (input : List ℤ) → AreRunning code.now (M.shape map.now) bound input workers.items →
        IsBspOutcome code.now (M.shape map.now) input bound (verdict_of found.0)) }
    // The exchanges that are answered are those of the machine's definition; where none are, there are such.
    ensures counts { IfOk result (λ found. (bound : ℕ) (input : List ℤ) → AreRunning code.now (M.shape map.now) bound input workers.items →
        AreExchanges code.now (M.shape map.now) input bound (verdict_of found.0) found.1) }
    // Exchanges are answered where all workers kept them.
    ensures kept { AreKept true workers.items → IfOk result (λ found. IsSome found.1) }
{
    let refusal = refusal_by(workers[0].local.way);
    let EndRoom {
        mut items,
        memory,
        columns,
    } = room;
    take_items(&mut workers, &mut items);
    let Some(found) = outcome(code, map, workers.as_slice(), items, memory) else {
        return Err(refusal);
    };
    Ok((found, counts_in(workers, columns)))
}
