//! A whole run.

ghost use Rattle.std.specs.Prelude.{◌≡◌, List, ℤ, length, Bool, Option, IfOk, IfErr};
ghost use Rattle.write_rules.specs.Verdict.{verdict_of};
ghost use Rattle.superstep_machine.specs.Run.{IsBspOutcome};
ghost use Rattle.superstep_machine.specs.Trace.{AreBspExchanges};
ghost use Rattle.bsp_verify.specs.WellFormed.{IsWellFormed};
ghost use Rattle.worker_exchange.specs.Equipped.{IsRunnable};
ghost use Rattle.worker_exchange.specs.Opened.{IsAccepted, IsRefusal};
ghost use Rattle.run_options.specs.declared.reserve.Reserve.{Reserve as Given};
ghost use Rattle.bsp_machine.specs.Reserves.{AreGiven};
ghost use Rattle.bsp_machine.specs.Workers.{AreKept};
ghost use Rattle.bsp_machine.specs.Opening.{AreOpened};
ghost use Rattle.bsp_machine.specs.Ended.{AreRunning, IsFirstOver};

use crate::collecting::collect;
use crate::counted::CountedWorker;
use crate::end_room::EndRoom;
use crate::opening::{open_all, open_rows};
use crate::phases::Phases;
use address_map::AddressMap;
use bsp_verify::Verified;
use exchange_counts::Counts;
use std::alloc::{AllocError, Global};
use superstep_instructions::Code;
use worker_exchange::RunRefusal;
use write_rules::{Outcome, under};

// All workers go on up to the end of their run.
fn run_all<M: AddressMap>(
    alloc: Global,
    code: &Code,
    map: &M,
    workers: Vec<CountedWorker>,
    bound: u32,
) -> Result<Vec<CountedWorker>, AllocError>
    requires runnable { IsRunnable code.now (M.shape map.now) }
    requires workers { length workers.items ≡ (M.shape map.now).parts }
    requires opened { AreOpened code.now (M.shape map.now) workers.items }
    ensures workers { IfOk result (λ ended. length ended.items ≡ (M.shape map.now).parts) }
    ensures running { IfOk result (λ ended. (input : List ℤ) → AreRunning code.now (M.shape map.now) bound input workers.items →
        AreRunning code.now (M.shape map.now) bound input ended.items) }
    ensures over { IfOk result (λ ended. IsFirstOver ended.items) }
    ensures given { IfOk result (λ ended. (reserve : Option Given) → AreGiven reserve workers.items → AreGiven reserve ended.items) }
    ensures kept { IfOk result (λ ended. (kept : Bool) → AreKept kept workers.items → AreKept kept ended.items) }
{
    let count = map.modules();
    let most = workers[0].local.buffers.reply.capacity();
    let rows = open_rows(alloc, count, most)?;
    Ok(under(
        code.rule(),
        Phases {
            code,
            map,
            bound,
            workers,
            rows,
        },
    ))
}

// A run of well-formed code.
fn run_code<M: AddressMap>(
    alloc: Global,
    code: &Code,
    map: &M,
    workers: u32,
    input: &[i64],
    bound: u32,
) -> Result<(Outcome, Counts), RunRefusal>
    requires formed { IsWellFormed code.now }
    ensures refused { IfErr result (IsRefusal code.now (M.shape map.now) workers input.now) }
    ensures accepted { IfOk result (λ found. IsAccepted code.now (M.shape map.now) workers input.now) }
    ensures outcome { IfOk result (λ found. IsBspOutcome code.now (M.shape map.now) input.now bound (verdict_of found.0)) }
    ensures counts { IfOk result (λ found. AreBspExchanges code.now (M.shape map.now) input.now bound (verdict_of found.0) found.1) }
{
    let opened = open_all(alloc, code, map, workers, input, true)?;
    let Ok(room) = EndRoom::new(alloc, code, workers) else {
        return Err(RunRefusal::OutOfMemory);
    };
    let Ok(ended) = run_all(alloc, code, map, opened, bound) else {
        return Err(RunRefusal::OutOfMemory);
    };
    let (outcome, counts) = collect(code, map, ended, room)?;
    Ok((outcome, counts.unwrap()))
}

/// Runs verified code on an input by so many workers, in turn on one thread, within a bound on statements: what the run comes to, and
/// its exchanges with the words of each. The outcome is that of the machine of so many workers, which is the flat machine's for every
/// number of workers and every map. The first refusal that holds comes, before anything of the run is done; `OutOfMemory` comes where
/// memory was refused, here or to any worker on the way.
pub fn run_plain<M: AddressMap>(
    alloc: Global,
    verified: &Verified,
    map: &M,
    workers: u32,
    input: &[i64],
    bound: u32,
) -> Result<(Outcome, Counts), RunRefusal>
    // The run is refused for the first of E13, E12 and E11 that holds, in this order, and for want of memory only where
    // none does.
    ensures refused { IfErr result (λ refusal. IsRefusal verified.now (M.shape map.now) workers input.now refusal) }
    // There is an answer only where none of E13, E12 and E11 holds.
    ensures accepted { IfOk result (λ found. IsAccepted verified.now (M.shape map.now) workers input.now) }
    // The outcome is that of the machine's definition, for the workers and the map of the run.
    ensures outcome { IfOk result (λ found. IsBspOutcome verified.now (M.shape map.now) input.now bound (verdict_of found.0)) }
    // The exchanges are those of the machine's definition, with the words that each worker sent and received.
    ensures counts { IfOk result (λ found. AreBspExchanges verified.now (M.shape map.now) input.now bound (verdict_of found.0) found.1) }
{
    run_code(alloc, verified.code(), map, workers, input, bound)
}
