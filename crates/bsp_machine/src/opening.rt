//! All workers before the first instruction.

ghost use Rattle.std.specs.Prelude.{◌≡◌, ◌++◌, ◌∷◌, [], length, None, IfOk, IfErr, OnOk};
ghost use Rattle.bsp_verify.specs.WellFormed.{IsWellFormed};
ghost use Rattle.worker_exchange.specs.declared.refusal.RunRefusal.TheVariants as refusal_is;
ghost use Rattle.worker_exchange.specs.Opened.{IsAccepted, IsRefusal};
ghost use Rattle.bsp_machine.specs.Workers.{AreKept, AreSheets};
ghost use Rattle.bsp_machine.specs.Reserves.{AreGiven};
ghost use Rattle.bsp_machine.specs.Opening.{AreFresh};

use crate::counted::CountedWorker;
use crate::sheet::Sheet;
use address_map::AddressMap;
use std::alloc::{AllocError, Global};
use superstep_instructions::Code;
use worker_exchange::RunRefusal;

// One worker more.
fn add(all: &mut Vec<CountedWorker>, worker: CountedWorker) -> Result<(), RunRefusal>
    ensures added { OnOk result (all.new.items ≡ all.old.items ++ worker ∷ []) }
    ensures memory { IfErr result (λ refusal. refusal ≡ refusal_is.OutOfMemory) }
{
    match all.push(worker) {
        Ok(()) => Ok(()),
        Err(_) => Err(RunRefusal::OutOfMemory),
    }
}

/// All workers, each with the cells of its module, and without a reserve. With `kept` each keeps what it counts at each exchange, else only
/// how many there were. They are judged as worker 0 is, before anything else is asked for.
pub fn open_all<M: AddressMap>(
    alloc: Global,
    code: &Code,
    map: &M,
    workers: u32,
    input: &[i64],
    kept: bool,
) -> Result<Vec<CountedWorker>, RunRefusal>
    requires formed { IsWellFormed code.now }
    ensures refused { IfErr result (IsRefusal code.now (M.shape map.now) workers input.now) }
    ensures accepted { IfOk result (λ all. IsAccepted code.now (M.shape map.now) workers input.now) }
    ensures count { IfOk result (λ all. length all.items ≡ workers) }
    ensures opened { IfOk result (λ all. AreFresh code.now (M.shape map.now) input.now all.items) }
    ensures unreserved { IfOk result (λ all. AreGiven None all.items) }
    ensures kept { IfOk result (λ all. AreKept kept all.items) }
{
    let first = CountedWorker::new(alloc, code, map, workers, 0, input, kept)?;
    let mut all = Vec::new(alloc);
    add(&mut all, first)?;
    'workers: for worker in 1..workers {
        let next = CountedWorker::new(alloc, code, map, workers, worker, input, kept)?;
        add(&mut all, next)?;
    }
    Ok(all)
}

/// A row for each worker, to all of them, each message with room for so many words.
pub(crate) fn open_rows(alloc: Global, workers: u32, most: usize) -> Result<Vec<Sheet>, AllocError>
    ensures { IfOk result (λ rows. AreSheets workers most rows.items) }
{
    let mut rows = Vec::with_capacity(alloc, workers as usize)?;
    'workers: for _w in 0..workers {
        rows.push(Sheet::with_room(alloc, workers, most)?)?;
    }
    Ok(rows)
}
