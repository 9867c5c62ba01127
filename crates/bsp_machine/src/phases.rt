//! Exchange by exchange, up to the end of the run.

ghost use Rattle.std.specs.Prelude.{◌≡◌, List, ℤ, length, Bool, Option};
ghost use Rattle.worker_exchange.specs.Equipped.{most_words, IsRunnable};
ghost use Rattle.bsp_machine.specs.Workers.{AreKept, AreSheets};
ghost use Rattle.run_options.specs.declared.reserve.Reserve.{Reserve as Given};
ghost use Rattle.bsp_machine.specs.Reserves.{AreGiven};
ghost use Rattle.bsp_machine.specs.Ended.{AreOnWay, AreRunning, IsFirstOver};

use crate::counted::CountedWorker;
use crate::phase::phase;
use crate::sheet::Sheet;
use address_map::AddressMap;
use superstep_instructions::Code;
use worker_exchange::is_over;
use write_rules::{RuleBody, WriteRule};

// Up to the exchange at which worker 0's run is over.
fn run_phases<R: WriteRule, M: AddressMap>(
    code: &Code,
    rule: &R,
    map: &M,
    bound: u32,
    workers: &mut [CountedWorker],
    rows: &mut [Sheet],
)
    requires rule { R.WriteRule.rule rule.now ≡ code.now.rule }
    requires runnable { IsRunnable code.now (M.shape map.now) }
    requires opened { AreOnWay code.now (M.shape map.now) bound workers.old }
    requires workers { length workers.old ≡ (M.shape map.now).parts }
    requires rows { AreSheets (M.shape map.now).parts (most_words code.now (M.shape map.now)) rows.old }
    ensures workers { length workers.new ≡ (M.shape map.now).parts }
    ensures running { (input : List ℤ) → AreRunning code.now (M.shape map.now) bound input workers.old →
        AreRunning code.now (M.shape map.now) bound input workers.new }
    ensures over { IsFirstOver workers.new }
    ensures given { (reserve : Option Given) → AreGiven reserve workers.old → AreGiven reserve workers.new }
    ensures kept { (kept : Bool) → AreKept kept workers.old → AreKept kept workers.new }
{
    'phases: while !is_over(&workers[0].local) {
        phase(code, rule, map, bound, workers, rows);
    }
}

/// A whole run of workers that were opened. It is run under the rule of the code, which is matched once for all of it.
pub(crate) struct Phases<'a, M> {
    pub(crate) code: &'a Code,
    pub(crate) map: &'a M,
    pub(crate) bound: u32,
    pub(crate) workers: Vec<CountedWorker>,
    pub(crate) rows: Vec<Sheet>,
}

impl<'a, M: AddressMap> RuleBody for Phases<'a, M> {
    ghost use Rattle.std.specs.Prelude.{◌≡◌, List, ℤ, length, Bool, Option};
    ghost use Rattle.run_options.specs.declared.reserve.Reserve.{Reserve as Given};
    ghost use Rattle.bsp_machine.specs.Workers.{AreKept};
    ghost use Rattle.bsp_machine.specs.Reserves.{AreGiven};
    ghost use Rattle.bsp_machine.specs.Ended.{AreRunning, IsFirstOver, CanRun};

    type Answer = Vec<CountedWorker>;

    ghost can_run = { λ b rule. (rule ≡ b.code.now.rule)
        × CanRun b.code.now (M.shape b.map.now) b.bound b.workers.items b.rows.items };

    ghost gives = { λ b rule workers. (length workers.items ≡ (M.shape b.map.now).parts)
        × ((input : List ℤ) → AreRunning b.code.now (M.shape b.map.now) b.bound input b.workers.items →
        AreRunning b.code.now (M.shape b.map.now) b.bound input workers.items) × IsFirstOver workers.items
        × ((reserve : Option Given) → AreGiven reserve b.workers.items → AreGiven reserve workers.items)
        × ((kept : Bool) → AreKept kept b.workers.items → AreKept kept workers.items) };

    fn run<R: WriteRule>(self, rule: &R) -> Vec<CountedWorker> {
        let Phases {
            code,
            map,
            bound,
            mut workers,
            mut rows,
        } = self;
        run_phases(
            code,
            rule,
            map,
            bound,
            workers.as_mut_slice(),
            rows.as_mut_slice(),
        );
        workers
    }
}
