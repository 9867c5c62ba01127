//! What a run comes to.

ghost use Rattle.std.specs.Prelude.{◌≡◌, ◌≤◌, ◌<◌, ◌++◌, ◌∷◌, [], length, Some, false, slice_get, vec_capacity};
ghost use Rattle.pram_model.specs.Layout.{total_size};
ghost use Rattle.superstep_machine.specs.Run as spec;
ghost use Rattle.worker_exchange.specs.Shown.{way_is, is_stopped};
ghost use Rattle.bsp_machine.specs.declared.counted.CountedWorker.{CountedWorker as Counted};
ghost use Rattle.bsp_machine.specs.Ended.{AreWide, memory_of, verdict_in};

use crate::counted::CountedWorker;
use crate::memory::take_memory;
use address_map::AddressMap;
use superstep_instructions::Code;
use superstep_machine::Key;
use worker_exchange::Way;
use write_rules::{Fault, Outcome};

fn fault_of(key: Key) -> Fault
    ensures { result ≡ spec.fault_of key }
{
    Fault {
        kind: key.kind,
        line: key.line,
        place: key.place,
    }
}

// Takes in one item, if it is of a statement before that count.
fn add_below(found: &mut Vec<i64>, count: u32, item: &(u32, i64))
    requires { length found.old.items < vec_capacity found.old }
    ensures items { found.new.items ≡ found.old.items ++ spec.items_below count (item.now ∷ []) }
    ensures room { vec_capacity found.new ≡ vec_capacity found.old }
{
    if item.0 < count {
        found.push_reserved(item.1);
    }
}

// Takes in the items of an output, those of statements before that count.
fn items_below(count: u32, output: &[(u32, i64)], mut found: Vec<i64>) -> Vec<i64>
    requires none { found.items ≡ [] }
    requires room { length output.now ≤ vec_capacity found }
    ensures { result.items ≡ spec.items_below count output.now }
{
    for item in output {
        add_below(&mut found, count, item);
    }
    found
}

// Takes in all items of an output.
fn items(output: &[(u32, i64)], mut found: Vec<i64>) -> Vec<i64>
    requires none { found.items ≡ [] }
    requires room { length output.now ≤ vec_capacity found }
    ensures { result.items ≡ spec.items output.now }
{
    for item in output {
        found.push_reserved(item.1);
    }
    found
}

/// What a run comes to, where that is an outcome: how it is over and the output are worker 0's, the memory is that of all. There is room
/// for the items and for the memory.
pub(crate) fn outcome<M: AddressMap>(
    code: &Code,
    map: &M,
    workers: &[CountedWorker],
    found: Vec<i64>,
    mut memory: Vec<i64>,
) -> Option<Outcome>
    requires some { 0 < length workers.now }
    requires workers { length workers.now ≡ (M.shape map.now).parts }
    requires places { total_size code.now.layout ≤ (M.shape map.now).count }
    requires wide { (x : Counted) → slice_get workers.now 0 ≡ Some x → is_stopped x.local.way ≡ false →
        AreWide (M.shape map.now) workers.now }
    requires items { (x : Counted) → slice_get workers.now 0 ≡ Some x → is_stopped x.local.way ≡ false →
        (found.items ≡ []) × (length x.local.steps.uniform.output.items ≤ vec_capacity found) }
    requires no_values { memory.items ≡ [] }
    requires values { total_size code.now.layout ≤ vec_capacity memory }
    ensures { (x : Counted) → slice_get workers.now 0 ≡ Some x → verdict_in result
        ≡ spec.verdict_by (way_is x.local.way) x.local.steps.uniform.output.items (memory_of code.now (M.shape map.now) workers.now) }
{
    let first = &workers[0].local;
    let output = first.steps.uniform.output.as_slice();
    match first.way {
        Way::Past {
            key: Some(key),
            ended: _,
        } => Some(Outcome::Faulted {
            fault: fault_of(key),
            output: items_below(key.count, output, found),
        }),
        Way::Past {
            key: None,
            ended: true,
        } => {
            take_memory(code, map, workers, &mut memory);
            Some(Outcome::Ended {
                output: items(output, found),
                memory,
            })
        }
        Way::Past {
            key: None,
            ended: false,
        } => Some(Outcome::GoesOn {
            output: items(output, found),
        }),
        Way::On | Way::Ending { ended: _ } | Way::Stopped { mark: _ } => None,
    }
}
