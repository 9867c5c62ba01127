//! A run by workers in threads.

ghost use Rattle.std.specs.Prelude.{◌≡◌, List, ℤ, Bool, true, Option, length, IfOk, IfErr, IfSome, IsSome};
ghost use Rattle.write_rules.specs.Verdict.{verdict_of};
ghost use Rattle.superstep_machine.specs.Run.{IsBspOutcome};
ghost use Rattle.superstep_machine.specs.Trace.{AreBspExchanges};
ghost use Rattle.bsp_verify.specs.WellFormed.{IsWellFormed};
ghost use Rattle.worker_exchange.specs.Opened.{IsAccepted, IsRefusal};
ghost use Rattle.turnstile.specs.Seats.{AreSeatsOf};
ghost use Rattle.run_options.specs.declared.reserve.Reserve.{Reserve as Given};
ghost use Rattle.bsp_machine.specs.Reserves.{HaveReserve};
ghost use Rattle.bsp_machine.specs.Workers.{AreKept};
ghost use Rattle.bsp_machine.specs.Opening.{AreFresh};
ghost use Rattle.bsp_machine.specs.Ended.{AreExchanges};
ghost use Rattle.workers.specs.Gathered.{HaveEnded};
ghost use Rattle.workers.specs.Tasks.{CanBegin};
ghost use Rattle.workers.specs.Past.{ComesPast, IsReservedRefusal, IsRefusalWith, StaysWithin};

use crate::gates::Gate;
use crate::gathering::gather;
use crate::lists::{tasks_of, unused, unzipped};
use crate::reserving::open_reserved;
use crate::room::RunRoom;
use address_map::AddressMap;
use bsp_machine::{CountedWorker, EndRoom, RunRefusal};
use bsp_verify::Verified;
use exchange_counts::Counts;
use run_options::{Reserve, Terms};
use std::alloc::Global;
use std::sync::Wait;
use std::thread::{Threads, available_parallelism};
use superstep_instructions::Code;
use turnstile::{RowSeat, Turnstile};
use write_rules::Outcome;

// How often a worker looks at another before it sleeps.
const LOOKS: u32 = 100;

// It looks where each worker can have a processor of its own. Where they are fewer, it would take the time of the one that it waits for.
fn looks_of<R: Threads>(rt: &R, workers: u32) -> u32 {
    match available_parallelism(rt) {
        Ok(processors) if workers as usize <= processors.get() => LOOKS,
        _ => 0,
    }
}

// All workers play their parts, a thread being started for each. All seats come back, and the workers if they began: where the start of a
// thread is refused, none does.
fn play_all<'a, R: Threads + Wait + Sync, M: AddressMap + Sync, G: Gate + Sync>(
    rt: &R,
    turnstile: &'a Turnstile,
    code: &'a Code,
    map: &'a M,
    bound: u32,
    gate: &G,
    seats: Vec<RowSeat>,
    workers: Vec<CountedWorker>,
    room: RunRoom<'a, M>,
) -> (Vec<RowSeat>, Option<Vec<CountedWorker>>)
    requires begin { CanBegin M.shape (record { turnstile = turnstile.now; code = code.now; map = map.now; bound = bound }) seats.items
        workers.items }
    requires room { room.crew.line.runners ≡ length seats.items }
    ensures seats { AreSeatsOf turnstile.entry.now result.0.items }
    ensures ended { IfSome result.1 (λ ended. (input : List ℤ) → AreFresh code.entry.now (M.shape map.entry.now) input workers.items →
        HaveEnded code.entry.now (M.shape map.entry.now) bound input result.0.items ended.items) }
    ensures reserve { IfSome result.1 (λ ended. (reserve : Option Given) → HaveReserve reserve workers.items →
        HaveReserve reserve ended.items) }
    ensures kept { IfSome result.1 (λ ended. (kept : Bool) → AreKept kept workers.items → AreKept kept ended.items) }
{
    let RunRoom {
        crew,
        tasks,
        seats: back,
        workers: ended,
    } = room;
    let tasks = tasks_of(turnstile, code, map, bound, seats, workers, tasks);
    match crew.work_all(rt, tasks, gate) {
        Ok(played) => {
            let (back, ended) = unzipped(played, back, ended);
            (back, Some(ended))
        }
        Err(tasks) => (unused(tasks, back), None),
    }
}

// A run of well-formed code, by workers with a reserve or without. With `kept` it answers the exchanges too.
fn run_code<R: Threads + Wait + Sync, M: AddressMap + Sync, G: Gate + Sync>(
    rt: &R,
    alloc: Global,
    code: &Code,
    map: &M,
    input: &[i64],
    terms: Terms,
    kept: bool,
    gate: &G,
) -> Result<(Outcome, Option<Counts>), RunRefusal>
    requires formed { IsWellFormed code.now }
    ensures refused { IfErr result (IsRefusalWith code.now (M.shape map.now) terms.workers input.now terms.bound terms.reserve) }
    ensures accepted { IfOk result (λ found. IsAccepted code.now (M.shape map.now) terms.workers input.now) }
    ensures within { IfOk result (λ found. StaysWithin code.now (M.shape map.now) terms.bound input.now terms.reserve) }
    ensures outcome { IfOk result (λ found. IsBspOutcome code.now (M.shape map.now) input.now terms.bound (verdict_of found.0)) }
    ensures counts { IfOk result (λ found. AreExchanges code.now (M.shape map.now) input.now terms.bound (verdict_of found.0) found.1) }
    ensures kept { kept ≡ true → IfOk result (λ found. IsSome found.1) }
{
    let _instructions = code.instructions();
    let opened = open_reserved(alloc, code, map, terms.workers, input, terms.reserve, kept)?;
    let Ok(end_room) = EndRoom::new(alloc, code, terms.workers) else {
        return Err(RunRefusal::OutOfMemory);
    };
    let most = opened[0].local.buffers.reply.capacity();
    let Ok((mut turnstile, seats)) = Turnstile::new(alloc, terms.workers as usize, most) else {
        return Err(RunRefusal::OutOfMemory);
    };
    turnstile.set_looks(looks_of(rt, terms.workers));
    let Ok(room) = RunRoom::new(alloc, terms.workers as usize) else {
        turnstile.close(seats);
        return Err(RunRefusal::OutOfMemory);
    };
    let (seats, ended) = play_all(
        rt,
        &turnstile,
        code,
        map,
        terms.bound,
        gate,
        seats,
        opened,
        room,
    );
    match ended {
        Some(ended) => gather(code, map, turnstile, seats, ended, end_room),
        None => {
            turnstile.close(seats);
            Err(RunRefusal::OutOfMemory)
        }
    }
}

/// Runs verified code on an input, on such terms: what it comes to, and its exchanges where they are to be kept. For those each worker
/// keeps 24 bytes of each exchange; without, how many there were, and then a run takes memory for its output alone beside what the workers
/// have before the first instruction.
pub fn run_keeping<R: Threads + Wait + Sync, M: AddressMap + Sync, G: Gate + Sync>(
    rt: &R,
    alloc: Global,
    verified: &Verified,
    map: &M,
    input: &[i64],
    terms: Terms,
    kept: bool,
    gate: &G,
) -> Result<(Outcome, Option<Counts>), RunRefusal>
    // The run is refused for the first of E13, E12 and E11 that holds; else for want of memory, or with a reserve where
    // it comes past that.
    ensures refused { IfErr result (IsRefusalWith verified.now (M.shape map.now) terms.workers input.now terms.bound terms.reserve) }
    // There is an answer only where none of E13, E12 and E11 holds.
    ensures accepted { IfOk result (λ found. IsAccepted verified.now (M.shape map.now) terms.workers input.now) }
    // There is an answer only where the machine's run comes past no reserve that was given.
    ensures within { IfOk result (λ found. StaysWithin verified.now (M.shape map.now) terms.bound input.now terms.reserve) }
    // The outcome is that of the machine's definition, whatever the threads' schedule.
    ensures outcome { IfOk result (λ found. IsBspOutcome verified.now (M.shape map.now) input.now terms.bound (verdict_of found.0)) }
    // The exchanges that are answered are those of the machine's definition; where none are, there are such.
    ensures counts { IfOk result (λ found. AreExchanges verified.now (M.shape map.now) input.now terms.bound (verdict_of found.0) found.1) }
    // Exchanges are answered where they are to be kept.
    ensures kept { kept ≡ true → IfOk result (λ found. IsSome found.1) }
{
    let code = verified.code();
    run_code(rt, alloc, code, map, input, terms, kept, gate)
}

/// Runs verified code on an input, on such terms: as `run_reserved` where they have a reserve, else as `run_workers`.
pub fn run_on_terms<R: Threads + Wait + Sync, M: AddressMap + Sync, G: Gate + Sync>(
    rt: &R,
    alloc: Global,
    verified: &Verified,
    map: &M,
    input: &[i64],
    terms: Terms,
    gate: &G,
) -> Result<(Outcome, Counts), RunRefusal>
    // The run is refused for the first of E13, E12 and E11 that holds; else for want of memory, or with a reserve where
    // it comes past that.
    ensures refused { IfErr result (IsRefusalWith verified.now (M.shape map.now) terms.workers input.now terms.bound terms.reserve) }
    // There is an answer only where none of E13, E12 and E11 holds.
    ensures accepted { IfOk result (λ found. IsAccepted verified.now (M.shape map.now) terms.workers input.now) }
    // There is an answer only where the machine's run comes past no reserve that was given.
    ensures within { IfOk result (λ found. StaysWithin verified.now (M.shape map.now) terms.bound input.now terms.reserve) }
    // The outcome is that of the machine's definition, whatever the threads' schedule.
    ensures outcome { IfOk result (λ found. IsBspOutcome verified.now (M.shape map.now) input.now terms.bound (verdict_of found.0)) }
    // The exchanges are those of the machine's definition, with the words that each worker sent and received.
    ensures counts { IfOk result (λ found. AreBspExchanges verified.now (M.shape map.now) input.now terms.bound (verdict_of found.0)
        found.1) }
{
    let (outcome, counts) = run_keeping(rt, alloc, verified, map, input, terms, true, gate)?;
    Ok((outcome, counts.unwrap()))
}

/// Runs verified code on an input by so many workers, within a bound on statements: what the run comes to, and its exchanges with the words
/// of each. They are those of the machine of so many workers, in whatever order the threads get on. The first refusal that holds comes,
/// before anything of the run is done; `OutOfMemory` comes where memory was refused, here, to any worker on the way, or for the start of a
/// thread. What no clause says: a thread is started for each worker, each passes the gate before each exchange, and where a start is
/// refused no worker begins.
pub fn run_workers<R: Threads + Wait + Sync, M: AddressMap + Sync, G: Gate + Sync>(
    rt: &R,
    alloc: Global,
    verified: &Verified,
    map: &M,
    workers: u32,
    input: &[i64],
    bound: u32,
    gate: &G,
) -> Result<(Outcome, Counts), RunRefusal>
    // The run is refused for the first of E13, E12 and E11 that holds, in this order, and with E16 only where none
    // does.
    ensures refused { IfErr result (λ refusal. IsRefusal verified.now (M.shape map.now) workers input.now refusal) }
    // There is an answer only where none of E13, E12 and E11 holds.
    ensures accepted { IfOk result (λ found. IsAccepted verified.now (M.shape map.now) workers input.now) }
    // The outcome is that of the verified code by the machine's definition, on so many workers with this map, on the
    // input and within the bound.
    ensures outcome { IfOk result (λ found. IsBspOutcome verified.now (M.shape map.now) input.now bound (verdict_of found.0)) }
    // The exchanges are those of the machine's definition, with the words that each worker sent and received.
    ensures counts { IfOk result (λ found. AreBspExchanges verified.now (M.shape map.now) input.now bound (verdict_of found.0) found.1) }
{
    let terms = Terms {
        workers,
        bound,
        reserve: None,
    };
    run_on_terms(rt, alloc, verified, map, input, terms, gate)
}

/// The same run by workers that take all their memory before the first exchange, for so many items of output and so many exchanges. It is
/// refused with `OutOfReserve` exactly where the run prints more items than that, those that a fault drops counted, or has more exchanges,
/// and nothing else speaks against it. No clause says what had been done where `OutOfMemory` is answered.
pub fn run_reserved<R: Threads + Wait + Sync, M: AddressMap + Sync, G: Gate + Sync>(
    rt: &R,
    alloc: Global,
    verified: &Verified,
    map: &M,
    workers: u32,
    input: &[i64],
    bound: u32,
    reserve: Reserve,
    gate: &G,
) -> Result<(Outcome, Counts), RunRefusal>
    // The run is refused as without a reserve, or with E18 where nothing else speaks against it and the machine's run
    // comes past the reserve.
    ensures refused { IfErr result (IsReservedRefusal verified.now (M.shape map.now) workers input.now bound reserve) }
    // There is an answer only where none of E13, E12 and E11 holds.
    ensures accepted { IfOk result (λ found. IsAccepted verified.now (M.shape map.now) workers input.now) }
    // There is an answer only where the machine's run doesn't come past the reserve.
    ensures within { IfOk result (λ found. ¬ (ComesPast verified.now (M.shape map.now) bound input.now reserve)) }
    // The outcome is that of the machine's definition, for every input, bound and lawful map, whatever the threads'
    // schedule.
    ensures outcome { IfOk result (λ found. IsBspOutcome verified.now (M.shape map.now) input.now bound (verdict_of found.0)) }
    // The exchanges are those of the machine's definition, with the words that each worker sent and received.
    ensures counts { IfOk result (λ found. AreBspExchanges verified.now (M.shape map.now) input.now bound (verdict_of found.0) found.1) }
{
    let reserve = Some(reserve);
    let terms = Terms {
        workers,
        bound,
        reserve,
    };
    run_on_terms(rt, alloc, verified, map, input, terms, gate)
}
