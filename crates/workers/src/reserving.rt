//! The reserve of all workers of a run.

ghost use Rattle.std.specs.Prelude.{◌≡◌, List, ℤ, Bool, length, Some, None, IfOk, IfErr, OnOk};
ghost use Rattle.address_map.specs.Lawful.{Shape};
ghost use Rattle.superstep_instructions.specs.Code.{SuperstepCode};
ghost use Rattle.bsp_verify.specs.WellFormed.{IsWellFormed};
ghost use Rattle.worker_exchange.specs.Opened.{IsAccepted, IsRefusal};
ghost use Rattle.bsp_machine.specs.Reserves.{HaveReserve};
ghost use Rattle.bsp_machine.specs.Workers.{AreKept};
ghost use Rattle.bsp_machine.specs.Opening.{AreFresh};

use address_map::AddressMap;
use bsp_machine::{CountedWorker, RunRefusal, open_all};
use run_options::Reserve;
use std::alloc::{AllocError, Global};
use superstep_instructions::Code;

// Each worker takes all the memory of its run.
fn reserve_each(workers: &mut Vec<CountedWorker>, reserve: Reserve) -> Result<(), AllocError>
    ensures count { length workers.new.items ≡ length workers.old.items }
    ensures given { OnOk result (HaveReserve (Some reserve) workers.new.items) }
    ensures fresh { OnOk result ((code : SuperstepCode) (m : Shape) (input : List ℤ) → AreFresh code m input workers.old.items →
        AreFresh code m input workers.new.items) }
    ensures kept { OnOk result ((kept : Bool) → AreKept kept workers.old.items → AreKept kept workers.new.items) }
{
    'workers: for w in 0..workers.len() {
        workers[w].reserve(reserve)?;
    }
    Ok(())
}

// Each worker takes its reserve, if there is one.
fn reserve_all(workers: &mut Vec<CountedWorker>, reserve: Option<Reserve>) -> Result<(), AllocError>
    requires unreserved { HaveReserve None workers.old.items }
    ensures count { length workers.new.items ≡ length workers.old.items }
    ensures given { OnOk result (HaveReserve reserve workers.new.items) }
    ensures fresh { OnOk result ((code : SuperstepCode) (m : Shape) (input : List ℤ) → AreFresh code m input workers.old.items →
        AreFresh code m input workers.new.items) }
    ensures kept { OnOk result ((kept : Bool) → AreKept kept workers.old.items → AreKept kept workers.new.items) }
{
    match reserve {
        None => Ok(()),
        Some(reserve) => reserve_each(workers, reserve),
    }
}

/// All workers of a run before the first instruction, each with the reserve, if there is one: it has taken all the memory of its run then.
/// With `kept` each keeps what it counts at each exchange, else only how many there were. Refused as the run is.
pub(crate) fn open_reserved<M: AddressMap>(
    alloc: Global,
    code: &Code,
    map: &M,
    workers: u32,
    input: &[i64],
    reserve: Option<Reserve>,
    kept: bool,
) -> Result<Vec<CountedWorker>, RunRefusal>
    requires formed { IsWellFormed code.now }
    ensures refused { IfErr result (IsRefusal code.now (M.shape map.now) workers input.now) }
    ensures accepted { IfOk result (λ all. IsAccepted code.now (M.shape map.now) workers input.now) }
    ensures count { IfOk result (λ all. length all.items ≡ workers) }
    ensures opened { IfOk result (λ all. AreFresh code.now (M.shape map.now) input.now all.items) }
    ensures given { IfOk result (λ all. HaveReserve reserve all.items) }
    ensures kept { IfOk result (λ all. AreKept kept all.items) }
{
    let mut opened = open_all(alloc, code, map, workers, input, kept)?;
    match reserve_all(&mut opened, reserve) {
        Ok(()) => Ok(opened),
        Err(_) => Err(RunRefusal::OutOfMemory),
    }
}
