// Who starts a start line.
ghost use Rattle.std.specs.Prelude.{◌≡◌, ◌<◌, true, false, [], length, map, Some, MatchOption};
ghost use Rattle.std.specs.Option.{ForSome};
ghost use Rattle.turnstile.specs.declared.start.told.Told.TheVariants.{Nothing, Stop, Go};
ghost use Rattle.turnstile.specs.Lines.{bare, slots_of, starter};

use crate::start::line::{Board, Chair, StartLine};
use crate::start::plays::{SayGo, SayStop};
use std::collections::VecDeque;
use std::marker::Model;

/// Who says go or stop at a start line.
#[derive(Drop)]
pub struct Starter<T> {
    pub(crate) chair: Chair<T>,
}

impl<T> Model for Starter<T> {
    ghost use Rattle.turnstile.specs.Runners.{StarterState};

    ghost Value = { StarterState T };

    ghost use Rattle.std.specs.Prelude.{◌≡◌};
    ghost use Rattle.turnstile.specs.Lines.{starts};

    ghost view = { λ s. record { table = s.chair.table_id; said = s.chair.me.0.said } };

    ghost invariant = { λ s. s.chair.me ≡ starts s.chair.table_id.slots s.chair.me.0.said };
}

impl<T> Starter<T> {
    /// Says go where there are items, one for each runner in order, and stop where there are none. It takes no memory.
    ///
    /// Something is said once.
    pub fn say(&mut self, line: &StartLine<T>, items: Option<Vec<T>>)
        requires own { self.old.table ≡ line.now.table }
        requires once { self.old.said ≡ Nothing }
        requires items { ForSome items (λ v. length v.items ≡ line.now.runners) }
        ensures same { self.new.table ≡ self.old.table }
        ensures said { MatchOption items (self.new.said ≡ Stop) (λ v. self.new.said ≡ Go v.items) }
    {
        announce(&line.table.shared, &mut self.chair, items, line.runners);
        wake_all(&line.table.shared, line.runners);
    }
}

// Says go or stop, in one step.
fn announce<T>(board: &Board<T>, chair: &mut Chair<T>, items: Option<Vec<T>>, runners: usize)
    requires own { (chair.old.table_id ≡ board.now.table_id) × (0 < board.now.table_id.words)
        × (board.now.key ≡ runners) }
    requires fresh { chair.old.me ≡ (starter runners true Nothing [], bare 0 runners) }
    requires items { ForSome items (λ v. length v.items ≡ runners) }
    ensures own { chair.new.table_id ≡ chair.old.table_id }
    ensures said { MatchOption items (chair.new.me ≡ (starter runners false Stop [], [])) (λ v. chair.new.me
        ≡ (starter runners false (Go v.items) [], [])) }
{
    match items {
        None => {
            board.store::<SayStop>(chair, 0, 2);
        }
        Some(items) => {
            lay(board, chair, VecDeque::from(items), runners);
            board.store::<SayGo>(chair, 0, 1);
        }
    }
}

// Puts the items into the slots, in order.
fn lay<T>(board: &Board<T>, chair: &mut Chair<T>, items: VecDeque<T>, runners: usize)
    requires own { chair.old.table_id ≡ board.now.table_id }
    requires bare { (chair.old.me.1 ≡ bare 0 runners) × (length items.items ≡ runners) }
    ensures own { (chair.new.table_id ≡ chair.old.table_id) × (chair.new.id ≡ chair.old.id) }
    ensures laid { chair.new.me ≡ (chair.old.me.0, slots_of 0 (map Some items.items)) }
{
    let mut items = items;
    for k in 0..runners {
        let item = items.pop_front().unwrap();
        match board.exchange(chair, k, Some(item)) {
            None => {}
            Some(_) => unreachable!(),
        }
        chair.turn();
    }
    items.destroy_empty();
}

fn wake_all<T>(board: &Board<T>, runners: usize)
    requires { 0 < board.now.table_id.words }
{
    for _ in 0..runners {
        board.wake_one(0);
    }
}
