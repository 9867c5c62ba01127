// How the runners of a start line come back.
ghost use Rattle.std.specs.Prelude.{◌≡◌, ◌<◌, ℕ, ◌∷◌, [], false, map, slice_get, Some};
ghost use Rattle.std.specs.Slots.{slots_items, slots_len, IsFull};
ghost use Rattle.turnstile.specs.Lines.{runner, starter, IsStarter, held, has_gone};
ghost use Rattle.turnstile.specs.Runners.{RunnerState, AreNone, entry_of};

use crate::start::line::{Board, Chair};
use crate::start::plays::{Back, TakesIn};
use crate::start::runners::Runner;
use atomic_table::Closed;
use std::alloc::Global;

// Gives back the slot that a runner holds, which is empty.
fn give_back<T>(board: &Board<T>, chair: &mut Chair<T>, at: usize, holds: bool)
    requires own { (chair.old.table_id ≡ board.now.table_id) × (0 < board.now.table_id.words) }
    requires runner { (chair.old.me ≡ (runner at chair.old.me.0.heard false, held holds at))
        × (holds ≡ has_gone chair.old.me.0.heard) }
    ensures own { (chair.new.table_id ≡ chair.old.table_id) × (chair.new.id ≡ chair.old.id) }
    ensures back { chair.new.me ≡ (runner at chair.old.me.0.heard holds, []) }
{
    if holds {
        board.load::<Back>(chair, 0);
    }
}

// Takes in a runner.
fn take_in<T>(board: &Board<T>, chair: &mut Chair<T>, from: Runner<T>)
    requires own { (chair.old.table_id ≡ board.now.table_id) × (from.table ≡ board.now.table_id)
        × (0 < board.now.table_id.words) }
    requires starter { IsStarter chair.old.me.0 }
    ensures own { (chair.new.table_id ≡ chair.old.table_id) × (chair.new.id ≡ chair.old.id) }
    ensures taken { chair.new.me
        ≡ (
          starter chair.old.me.0.at chair.old.me.0.holds chair.old.me.0.said (entry_of from
              ∷ chair.old.me.0.taken),
          chair.old.me.1,
        ) }
{
    let Runner {
        chair: mut seat,
        at,
        holds,
    } = from;
    give_back(board, &mut seat, at, holds);
    board.join_seat::<TakesIn>(chair, seat);
}

// Takes in all runners that are given, the last one first.
pub(crate) fn take_all<T>(board: &Board<T>, chair: &mut Chair<T>, runners: Vec<Runner<T>>)
    requires own { (chair.old.table_id ≡ board.now.table_id) × (0 < board.now.table_id.words) }
    requires starter { chair.old.me.0 ≡ starter chair.old.me.0.at chair.old.me.0.holds chair.old.me.0.said [] }
    requires runners { (k : ℕ) (r : RunnerState T) → slice_get runners.items k ≡ Some r
        → r.table ≡ board.now.table_id }
    ensures own { (chair.new.table_id ≡ chair.old.table_id) × (chair.new.id ≡ chair.old.id) }
    ensures taken { chair.new.me
        ≡ (starter chair.old.me.0.at chair.old.me.0.holds chair.old.me.0.said (map entry_of runners.items), chair.old.me.1) }
{
    let mut runners = runners;
    while let Some(from) = runners.pop() {
        take_in(board, chair, from);
    }
    runners.destroy_empty();
}

// Takes the slots of a line apart that no one shares any more. They are empty.
pub(crate) fn empty_out<T>(closed: Closed<Option<T>, Global>)
    requires full { IsFull closed.slots }
    requires none { AreNone (slots_len closed.slots) (slots_items closed.slots) }
{
    let mut closed = closed;
    for k in 0..closed.slot_count() {
        match closed.take(k) {
            None => {}
            Some(_) => unreachable!(),
        }
    }
    closed.free();
}
