//! Words that no worker sends: whoever gets them passes over what makes no sense, and goes on.

ghost use Rattle.std.specs.Prelude.{◌≡◌, [], ◌∷◌, false, pos};
ghost use Rattle.bsp_machine.specs.Opening.{IsFresh};
ghost use Rattle.superstep_machine.specs.Run.{is_over};
ghost use Rattle.worker_exchange.specs.Shown.{way_is};
ghost use Rattle.code_tests.specs.Flood.{CanBeFlooded};

use crate::codes::BROADCAST;
use crate::two_messages::{FromBoth, ToBoth};
use address_map::{AddressMap, Identity};
use bsp_machine::CountedWorker;
use bsp_verify::verify;
use std::alloc::Global;
use superstep_code::{Code, read_listing};
use write_rules::{RuleBody, WriteRule, under};

// Worker 0 of two goes through an exchange, at which that comes to it.
fn exchange<R: WriteRule, M: AddressMap>(
    code: &Code,
    rule: &R,
    map: &M,
    worker: &mut CountedWorker,
    row: &mut ToBoth,
    came: &FromBoth,
)
    requires rule { R.WriteRule.rule rule.now ≡ code.now.rule }
    requires flooded { CanBeFlooded code.now (M.shape map.now) worker.old row.old.room came.now.words.now }
    requires going { is_over (way_is worker.old.local.way) ≡ false }
    ensures { CanBeFlooded code.now (M.shape map.now) worker.new row.new.room came.now.words.now }
{
    worker.until_exchange(code, rule, map, 9, row);
    worker.receive(code, rule, map, 9, came);
}

// Worker 0 of two, and what comes to it from each at every exchange.
#[derive(Drop)]
struct Flooded<'a, M> {
    code: &'a Code,
    map: &'a M,
    worker: CountedWorker,
    row: ToBoth,
    came: FromBoth<'a>,
}

impl<'a, M: AddressMap> RuleBody for Flooded<'a, M> {
    ghost use Rattle.std.specs.Prelude.{◌≡◌};
    ghost use Rattle.code_tests.specs.Flood.{CanBeFlooded};

    // How many exchanges it makes up to the end of its run, or 9 where it goes on behind these.
    type Answer = u32;

    ghost can_run = { λ b rule. (rule ≡ b.code.now.rule)
        × CanBeFlooded b.code.now (M.shape b.map.now) b.worker b.row.room b.came.words.now };

    ghost gives = { λ b rule made. Unit {0} };

    fn run<R: WriteRule>(self, rule: &R) -> u32 {
        let Flooded {
            code,
            map,
            mut worker,
            mut row,
            came,
        } = self;
        'exchanges: for made in 0..9 {
            if worker.is_over() {
                return made;
            }
            exchange(code, rule, map, &mut worker, &mut row, &came);
        }
        9
    }
}

// How many exchanges a worker makes that is told these words at each. It has a function of its own, so that no other lets a worker go.
fn flood<M: AddressMap>(
    alloc: Global,
    code: &Code,
    map: &M,
    worker: CountedWorker,
    header: [u64; 4],
    words: &[u64],
) -> Option<u32>
    requires fresh { IsFresh code.now (M.shape map.now) (pos 9 ∷ pos 8 ∷ []) 0 worker }
    requires two { (M.shape map.now).parts ≡ 2 }
{
    let most = worker.local.buffers.reply.capacity();
    if words.len() > most {
        return None;
    }
    let Ok(row) = ToBoth::with_room(alloc, most) else {
        return None;
    };
    let came = FromBoth { header, words };
    Some(under(
        code.rule(),
        Flooded {
            code,
            map,
            worker,
            row,
            came,
        },
    ))
}

// How many exchanges worker 0 makes of the worked listing, where that comes to it from each worker.
fn exchanges(alloc: Global, header: [u64; 4], words: &[u64]) -> Option<u32> {
    let verified = verify(alloc, read_listing(alloc, BROADCAST).ok()?).ok()?;
    let code = verified.code();
    let Ok(map) = Identity::new(8, 2) else {
        return None;
    };
    match CountedWorker::new(alloc, code, &map, 2, 0, &[9, 8], true) {
        Ok(worker) => flood(alloc, code, &map, worker, header, words),
        Err(_) => None,
    }
}

const MOST: u64 = 18_446_744_073_709_551_615;

// As many puts as a header can tell of.
const MANY_PUTS: [u64; 4] = [0, 0, 18_446_744_069_414_584_320, 0];

#[test]
fn strange_words_are_passed_over(rt: HostRuntime) {
    let rows: [&[u64]; 6] = [
        &[],
        // not whole
        &[0],
        // cells of the other module, and of none
        &[1, 0, 5, 3, 0, 5, 7, 0, 5],
        &[1_048_575, 0, 5],
        &[MOST, MOST, MOST, MOST, MOST, MOST],
        // the same put twice
        &[0, 0, 5, 0, 0, 5],
    ];
    for words in rows {
        assert_eq!(rt; exchanges(rt.alloc(), [0; 4], words), Some(4));
        assert_eq!(rt; exchanges(rt.alloc(), MANY_PUTS, words), Some(4));
        // the bits of the mark of a header that no worker writes are refused memory
        assert_eq!(rt; exchanges(rt.alloc(), [MOST; 4], words), Some(1));
    }
}
