//! A run by the workers of a map.

ghost use Rattle.std.specs.Prelude.{◌≡◌, true, List, ℤ, Option, IfOk, IfErr, IfSome, IsNone, IsSome};
ghost use Rattle.superstep_instructions.specs.Code.{SuperstepCode};
ghost use Rattle.address_map.specs.Lawful.{IsLawful};
ghost use Rattle.address_map.specs.Outcome.{IsCells, IsWorkers};
ghost use Rattle.run_options.specs.declared.options.Options.{Options as RunOptions};
ghost use Rattle.pram_model.specs.Layout.{total_size};
ghost use Rattle.write_rules.specs.Verdict.{verdict_of};
ghost use Rattle.run_options.specs.Places.{IsLeastPower};
ghost use Rattle.run_options.specs.declared.reserve.Reserve.{Reserve as Given};
ghost use Rattle.renaming.specs.Packed.{IsPacked};
ghost use Rattle.program_runs.specs.Runs.{IsChoice, IsCodeRefused, IsMapOf, IsNoMap};
ghost use Rattle.superstep_machine.specs.Trace.{Exchange};
ghost use Rattle.program_runs.specs.Reserved.{IsCodeRefusedWith, IsCodeRunKept, IsCodeRunWith};

use address_map::{AddressMap, Affine, Identity, MapFault};
use bsp_machine::RunRefusal;
use bsp_verify::Verified;
use exchange_counts::Counts;
use program_texts::Refusal;
use renaming::pack;
use run_options::{MapChoice, Options, Reserve, Terms, places};
use std::alloc::{AllocError, Global};
use std::sync::Wait;
use std::thread::Threads;
use tidying::tidy;
use workers::{Gate, run_keeping};
use write_rules::Outcome;

// Every map is lawful: that is a law of its trait.
fn lawful<M: AddressMap>(map: &M)
    ensures { IsLawful (M.shape map.now) }
{
    let _modules = map.modules();
}

// Runs code by the workers of a map. With `kept` the exchanges are answered too.
fn run_on<R: Threads + Wait + Sync, M: AddressMap + Sync, G: Gate + Sync>(
    rt: &R,
    alloc: Global,
    code: &Verified,
    map: &M,
    input: &[i64],
    options: Options,
    reserve: Option<Reserve>,
    kept: bool,
    gate: &G,
) -> Result<(Outcome, Option<Counts>), Refusal>
    requires workers { IsWorkers options.workers }
    requires choice { IsChoice options.map }
    requires least { IsLeastPower (total_size code.now.layout) (M.shape map.now).count }
    requires placed { IsMapOf options.map (M.shape map.now).count options.workers (M.shape map.now) }
    ensures run { IfOk result (λ found. IsCodeRunKept code.now input.now options reserve (verdict_of found.0) found.1) }
    ensures kept { kept ≡ true → IfOk result (λ found. IsSome found.1) }
    ensures refused { IfErr result (IsCodeRefusedWith code.now input.now options reserve) }
{
    lawful(map);
    let terms = Terms {
        workers: options.workers,
        bound: options.bound,
        reserve,
    };
    match run_keeping(rt, alloc, code, map, input, terms, kept, gate) {
        Ok(found) => Ok(found),
        Err(RunRefusal::BadWorkers) => Err(Refusal::BadWorkers),
        Err(RunRefusal::BadMap) => Err(Refusal::BadMap),
        Err(RunRefusal::InputTooLong) => Err(Refusal::InputTooLong),
        Err(RunRefusal::OutOfMemory) => Err(Refusal::OutOfMemory),
        Err(RunRefusal::OutOfReserve) => Err(Refusal::OutOfReserve),
    }
}

// Why there is no such map.
fn refusal_of(fault: MapFault) -> Refusal
    ensures { (code : SuperstepCode) (input : List ℤ) (how : RunOptions) (reserve : Option Given) → IsNoMap how fault →
        IsCodeRefusedWith code input how reserve result }
{
    match fault {
        MapFault::BadWorkers => Refusal::BadWorkers,
        MapFault::BadMap => Refusal::BadMap,
    }
}

// Runs verified code by the workers and the map of the options. With `kept` the exchanges are answered too.
fn run_by_map<R: Threads + Wait + Sync, G: Gate + Sync>(
    rt: &R,
    alloc: Global,
    code: &Verified,
    input: &[i64],
    options: Options,
    reserve: Option<Reserve>,
    kept: bool,
    gate: &G,
) -> Result<(Outcome, Option<Counts>), Refusal>
    ensures run { IfOk result (λ found. IsCodeRunKept code.now input.now options reserve (verdict_of found.0) found.1) }
    ensures kept { kept ≡ true → IfOk result (λ found. IsSome found.1) }
    ensures refused { IfErr result (IsCodeRefusedWith code.now input.now options reserve) }
{
    let cells = places(code.code().layout().cells());
    let workers = options.workers;
    match options.map {
        MapChoice::Identity => match Identity::new(cells, workers) {
            Ok(map) => run_on(rt, alloc, code, &map, input, options, reserve, kept, gate),
            Err(fault) => Err(refusal_of(fault)),
        },
        MapChoice::Affine { factor, shift } => match Affine::new(cells, workers, factor, shift) {
            Ok(map) => run_on(rt, alloc, code, &map, input, options, reserve, kept, gate),
            Err(fault) => Err(refusal_of(fault)),
        },
    }
}

/// Runs verified code on an input, by the workers and the map of the options, each in a thread of its own that passes the gate before
/// its exchanges: its outcome, and the exchanges of the workers, of which each keeps 24 bytes an exchange. It is refused for the first of
/// these: E13 where there are no workers or more than 32, E12 where there is no such map, E11 where the input has more values than the code
/// has cells; for E16 where memory or a thread was refused; and with a reserve for E18, exactly where the run comes past that.
pub fn run_code<R: Threads + Wait + Sync, G: Gate + Sync>(
    rt: &R,
    alloc: Global,
    code: &Verified,
    input: &[i64],
    options: Options,
    reserve: Option<Reserve>,
    gate: &G,
) -> Result<(Outcome, Counts), Refusal>
    // The outcome and the exchanges are those of the machine of so many workers with that map, with the least power of
    // two of places, within the reserve.
    ensures run { IfOk result (λ found. IsCodeRunWith code.now input.now options reserve (verdict_of found.0) found.1) }
    // E13, E12 and E11 are answered only where they hold, in this order, E16 where none does, and E18 where only the
    // reserve is passed.
    ensures refused { IfErr result (IsCodeRefusedWith code.now input.now options reserve) }
{
    let (outcome, counts) = run_by_map(rt, alloc, code, input, options, reserve, true, gate)?;
    Ok((outcome, counts.unwrap()))
}

// The same run, of which only the outcome is wanted.
pub(crate) fn outcome_as_it_stands<R: Threads + Wait + Sync, G: Gate + Sync>(
    rt: &R,
    alloc: Global,
    code: &Verified,
    input: &[i64],
    options: Options,
    reserve: Option<Reserve>,
    gate: &G,
) -> Result<Outcome, Refusal>
    ensures run { IfOk result (λ outcome. (exchanges : List Exchange)
        × IsCodeRunWith code.now input.now options reserve (verdict_of outcome) exchanges) }
    ensures refused { IfErr result (IsCodeRefusedWith code.now input.now options reserve) }
{
    let (outcome, _none) = run_by_map(rt, alloc, code, input, options, reserve, false, gate)?;
    Ok(outcome)
}

// Why there is no map of the options, if there is none.
fn map_fault(cells: u32, options: Options) -> Option<MapFault>
    requires { IsCells cells }
    ensures none { IsNone result → IsWorkers options.workers × IsChoice options.map }
    ensures some { IfSome result (λ fault. IsNoMap options fault) }
{
    let workers = options.workers;
    match options.map {
        MapChoice::Identity => match Identity::new(cells, workers) {
            Ok(_) => None,
            Err(fault) => Some(fault),
        },
        MapChoice::Affine { factor, shift } => match Affine::new(cells, workers, factor, shift) {
            Ok(_) => None,
            Err(fault) => Some(fault),
        },
    }
}

// Why code isn't run where memory was refused before anything was looked at: want of memory is told where nothing else is wrong.
fn refused_memory(code: &Verified, input: &[i64], options: Options) -> Refusal
    ensures { IsCodeRefused code.now input.now options result }
{
    let cells = code.code().layout().cells();
    match map_fault(places(cells), options) {
        Some(fault) => refusal_of(fault),
        None if input.len() > cells as usize => Refusal::InputTooLong,
        None => Refusal::OutOfMemory,
    }
}

/// The same run, of which only the outcome is wanted: nothing is kept of an exchange, so that on the way memory is asked for by the output
/// alone. What is run is the code with its registers numbered anew, so that none takes room which no instruction names. It is refused as
/// `run_code` is.
pub fn outcome_of_code<R: Threads + Wait + Sync, G: Gate + Sync>(
    rt: &R,
    alloc: Global,
    code: &Verified,
    input: &[i64],
    options: Options,
    reserve: Option<Reserve>,
    gate: &G,
) -> Result<Outcome, Refusal>
    // The outcome is that of the machine of so many workers with that map, which has exchanges up to it, within the
    // reserve.
    ensures run { IfOk result (λ outcome. (exchanges : List Exchange)
        × IsCodeRunWith code.now input.now options reserve (verdict_of outcome) exchanges) }
    // What is run is the code with just the registers that an instruction names.
    ensures packed { IfOk result (λ outcome. (packed : SuperstepCode) × IsPacked code.now packed × ((exchanges : List Exchange)
        × IsCodeRunWith packed input.now options reserve (verdict_of outcome) exchanges)) }
    // E13, E12 and E11 are answered only where they hold, in this order, E16 where none does, and E18 where only the
    // reserve is passed.
    ensures refused { IfErr result (IsCodeRefusedWith code.now input.now options reserve) }
{
    match pack(alloc, code) {
        Ok(packed) => outcome_as_it_stands(rt, alloc, &packed, input, options, reserve, gate),
        Err(AllocError) => Err(refused_memory(code, input, options)),
    }
}

// The same run by code that sets fewer registers, where there is such code.
pub(crate) fn outcome_of_tidied<R: Threads + Wait + Sync, G: Gate + Sync>(
    rt: &R,
    alloc: Global,
    code: &Verified,
    input: &[i64],
    options: Options,
    reserve: Option<Reserve>,
    gate: &G,
) -> Result<Outcome, Refusal>
    ensures run { IfOk result (λ outcome. (exchanges : List Exchange)
        × IsCodeRunWith code.now input.now options reserve (verdict_of outcome) exchanges) }
    ensures refused { IfErr result (IsCodeRefusedWith code.now input.now options reserve) }
{
    match tidy(alloc, code) {
        Ok(Some(tidied)) => outcome_of_code(rt, alloc, &tidied, input, options, reserve, gate),
        Ok(None) => outcome_as_it_stands(rt, alloc, code, input, options, reserve, gate),
        Err(AllocError) => Err(refused_memory(code, input, options)),
    }
}
