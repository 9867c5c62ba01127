//! One exchange of all workers in turn.

ghost use Rattle.std.specs.Prelude.{◌≡◌, ◌<◌, ◌≤◌, ℕ, suc, List, ℤ, length, Bool, false, Option, Some, slice_get};
ghost use Rattle.superstep_machine.specs.Run.{is_over as spec_is_over};
ghost use Rattle.worker_exchange.specs.Shown.{is_stopped, way_is};
ghost use Rattle.worker_exchange.specs.Equipped.{most_words, left, left_at, IsRunnable};
ghost use Rattle.bsp_machine.specs.declared.counted.CountedWorker.{CountedWorker as Counted};
ghost use Rattle.bsp_machine.specs.Workers.{AreBehind, AreAt, AreReady, MayAllGoOn, AreTogether, AreKept, AreSheets};
ghost use Rattle.run_options.specs.declared.reserve.Reserve.{Reserve as Given};
ghost use Rattle.bsp_machine.specs.Reserves.{HaveReserve, AreGiven};
ghost use Rattle.bsp_machine.specs.Ended.{left_first};

use crate::counted::CountedWorker;
use crate::picked::Picked;
use crate::sheet::Sheet;
use address_map::AddressMap;
use superstep_instructions::Code;
use write_rules::WriteRule;

// Each worker goes to its next exchange, and fills its row.
fn send_all<R: WriteRule, M: AddressMap>(
    code: &Code,
    rule: &R,
    map: &M,
    bound: u32,
    workers: &mut [CountedWorker],
    rows: &mut [Sheet],
)
    requires rule { R.WriteRule.rule rule.now ≡ code.now.rule }
    requires going { MayAllGoOn code.now (M.shape map.now) bound workers.old }
    requires some { 0 < (M.shape map.now).parts }
    requires workers { length workers.old ≡ (M.shape map.now).parts }
    requires rows { AreSheets (M.shape map.now).parts (most_words code.now (M.shape map.now)) rows.old }
    ensures workers { length workers.new ≡ (M.shape map.now).parts }
    ensures rows { AreSheets (M.shape map.now).parts (most_words code.now (M.shape map.now)) rows.new }
    ensures ready { AreReady code.now (M.shape map.now) bound workers.new }
    ensures at { (input : List ℤ) (k : ℕ) → AreBehind code.now (M.shape map.now) bound input k workers.old →
        AreAt code.now (M.shape map.now) bound input k workers.new rows.new }
    ensures fewer { (w : ℕ) (x y : Counted) → slice_get workers.old w ≡ Some x → slice_get workers.new w ≡ Some y →
        is_stopped y.local.way ≡ false → left_at code.now bound y.local ≤ left code.now bound x.local }
    ensures reserve { (reserve : Option Given) → HaveReserve reserve workers.old → HaveReserve reserve workers.new }
    ensures kept { (kept : Bool) → AreKept kept workers.old → AreKept kept workers.new }
{
    'workers: for w in 0..workers.len() {
        workers[w].until_exchange(code, rule, map, bound, &mut rows[w]);
    }
}

// Each worker takes its column of all rows.
fn receive_all<R: WriteRule, M: AddressMap>(
    code: &Code,
    rule: &R,
    map: &M,
    bound: u32,
    workers: &mut [CountedWorker],
    rows: &[Sheet],
)
    requires rule { R.WriteRule.rule rule.now ≡ code.now.rule }
    requires runnable { IsRunnable code.now (M.shape map.now) }
    requires workers { length workers.old ≡ (M.shape map.now).parts }
    requires rows { AreSheets (M.shape map.now).parts (most_words code.now (M.shape map.now)) rows.now }
    requires ready { AreReady code.now (M.shape map.now) bound workers.old }
    ensures workers { length workers.new ≡ (M.shape map.now).parts }
    ensures behind { (input : List ℤ) (k : ℕ) → AreAt code.now (M.shape map.now) bound input k workers.old rows.now →
        AreBehind code.now (M.shape map.now) bound input (suc k) workers.new }
    ensures together { (input : List ℤ) (k : ℕ) → AreAt code.now (M.shape map.now) bound input k workers.old rows.now →
        AreTogether workers.new }
    ensures left { (w : ℕ) (x y : Counted) → slice_get workers.old w ≡ Some x → slice_get workers.new w ≡ Some y →
        spec_is_over (way_is y.local.way) ≡ false →
        (is_stopped x.local.way ≡ false) × (left code.now bound y.local < left_at code.now bound x.local) }
    ensures given { (reserve : Option Given) (input : List ℤ) (k : ℕ) →
        AreAt code.now (M.shape map.now) bound input k workers.old rows.now → HaveReserve reserve workers.old →
        AreGiven reserve workers.new }
    ensures kept { (kept : Bool) → AreKept kept workers.old → AreKept kept workers.new }
{
    'workers: for w in 0..workers.len() {
        let column = Picked { rows, worker: w };
        workers[w].receive(code, rule, map, bound, &column);
    }
}

/// One exchange: all workers go up to it, one after the other, and then each takes what came to it.
pub(crate) fn phase<R: WriteRule, M: AddressMap>(
    code: &Code,
    rule: &R,
    map: &M,
    bound: u32,
    workers: &mut [CountedWorker],
    rows: &mut [Sheet],
)
    requires rule { R.WriteRule.rule rule.now ≡ code.now.rule }
    requires runnable { IsRunnable code.now (M.shape map.now) }
    requires going { MayAllGoOn code.now (M.shape map.now) bound workers.old }
    requires workers { length workers.old ≡ (M.shape map.now).parts }
    requires rows { AreSheets (M.shape map.now).parts (most_words code.now (M.shape map.now)) rows.old }
    ensures workers { length workers.new ≡ (M.shape map.now).parts }
    ensures rows { AreSheets (M.shape map.now).parts (most_words code.now (M.shape map.now)) rows.new }
    // Behind it they are the workers of the run behind one exchange more, ..
    ensures behind { (input : List ℤ) (k : ℕ) → AreBehind code.now (M.shape map.now) bound input k workers.old →
        AreBehind code.now (M.shape map.now) bound input (suc k) workers.new }
    // .. and all of them have stopped if one has.
    ensures together { (input : List ℤ) (k : ℕ) → AreBehind code.now (M.shape map.now) bound input k workers.old →
        AreTogether workers.new }
    // By the mark of refused memory, or by that of the reserve that they were given.
    ensures given { (reserve : Option Given) (input : List ℤ) (k : ℕ) → AreBehind code.now (M.shape map.now) bound input k workers.old →
        HaveReserve reserve workers.old → AreGiven reserve workers.new }
    ensures kept { (kept : Bool) → AreKept kept workers.old → AreKept kept workers.new }
    ensures left { left_first code.now bound workers.new < left_first code.now bound workers.old }
{
    let _modules = map.modules();
    send_all(code, rule, map, bound, workers, rows);
    receive_all(code, rule, map, bound, workers, rows);
}
