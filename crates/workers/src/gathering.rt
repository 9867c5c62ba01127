//! What workers come to that have played at the seats of a turnstile.

ghost use Rattle.std.specs.Prelude.{◌≡◌, ℕ, List, ℤ, Option, Some, true, IfOk, IfErr, IsSome};
ghost use Rattle.write_rules.specs.Verdict.{verdict_of};
ghost use Rattle.superstep_machine.specs.Run.{IsBspOutcome};
ghost use Rattle.turnstile.specs.Seats.{AreSeatsOf};
ghost use Rattle.worker_exchange.specs.Equipped.{IsRunnable};
ghost use Rattle.run_options.specs.declared.reserve.Reserve.{Reserve as Given};
ghost use Rattle.bsp_machine.specs.Reserves.{HaveReserve, refusal_for};
ghost use Rattle.bsp_machine.specs.Workers.{AreKept};
ghost use Rattle.bsp_machine.specs.Opening.{IsRoom};
ghost use Rattle.bsp_machine.specs.Ended.{AreExchanges, IsFirstStopped};
ghost use Rattle.workers.specs.Gathered.{HaveEnded, HaveEndedSome, NoneHasStopped};
ghost use Rattle.workers.specs.Past.{ComesPast};

use address_map::AddressMap;
use bsp_machine::{CountedWorker, EndRoom, RunRefusal, collect};
use exchange_counts::Counts;
use superstep_instructions::Code;
use turnstile::{RowSeat, Turnstile};
use write_rules::Outcome;

/// What the workers of one run come to, in their order, each with the seat at which it has played its part, and the exchanges that
/// they counted, if each has kept those. It closes the turnstile in any case, and takes no memory. An error comes only where the workers
/// have stopped, all of them at one exchange: `OutOfReserve` where they came past the reserve that they were given, `OutOfMemory` where
/// memory was refused to one.
pub fn gather<M: AddressMap>(
    code: &Code,
    map: &M,
    turnstile: Turnstile,
    seats: Vec<RowSeat>,
    workers: Vec<CountedWorker>,
    room: EndRoom,
) -> Result<(Outcome, Option<Counts>), RunRefusal>
    requires runnable { IsRunnable code.now (M.shape map.now) }
    requires seats { AreSeatsOf turnstile seats.items }
    requires ended { HaveEndedSome code.now (M.shape map.now) seats.items workers.items }
    requires room { IsRoom code.now (M.shape map.now) room }
    // With a reserve the refusal is that the run came past it, and without one that memory was refused.
    ensures given { (reserve : Option Given) → HaveReserve reserve workers.items → IfErr result (λ refusal. refusal ≡ refusal_for reserve) }
    // A refusal is answered only where worker 0 was stopped by a mark.
    ensures stopped { IfErr result (λ refusal. IsFirstStopped workers.items) }
    // An outcome is answered only where no worker was stopped by a mark.
    ensures unstopped { IfOk result (λ found. NoneHasStopped workers.items) }
    // Workers with a reserve are refused only where the machine's run comes past it.
    ensures past { IfErr result (λ refusal. (bound : ℕ) (input : List ℤ) (reserve : Given) →
        HaveEnded code.now (M.shape map.now) bound input seats.items workers.items → HaveReserve (Some reserve) workers.items →
        ComesPast code.now (M.shape map.now) bound input reserve) }
    // Workers with a reserve have an outcome only where the machine's run doesn't come past it.
    ensures within { IfOk result (λ found. (bound : ℕ) (input : List ℤ) (reserve : Given) →
        HaveEnded code.now (M.shape map.now) bound input seats.items workers.items → HaveReserve (Some reserve) workers.items →
        ¬ (ComesPast code.now (M.shape map.now) bound input reserve)) }
    // The outcome of workers that have all come to the end of one run, however they took turns, is that of the
    // machine's definition.
    ensures outcome { IfOk result (λ found. (bound : ℕ) (input : List ℤ) →
        HaveEnded code.now (M.shape map.now) bound input seats.items workers.items →
        IsBspOutcome code.now (M.shape map.now) input bound (verdict_of found.0)) }
    // The exchanges that are answered are those of the machine's definition; where none are, there are such.
    ensures counts { IfOk result (λ found. (bound : ℕ) (input : List ℤ) →
        HaveEnded code.now (M.shape map.now) bound input seats.items workers.items →
        AreExchanges code.now (M.shape map.now) input bound (verdict_of found.0) found.1) }
    // Exchanges are answered where all workers kept them.
    ensures kept { AreKept true workers.items → IfOk result (λ found. IsSome found.1) }
{
    turnstile.close(seats);
    collect(code, map, workers, room)
}
