// The runners of a start line.
ghost use Rattle.std.specs.Prelude.{◌≡◌, ◌<◌, ◌∷◌, [], Some, None, false, MatchOption};
ghost use Rattle.turnstile.specs.declared.start.told.Told.TheVariants.{Nothing, Stop, Go};
ghost use Rattle.turnstile.specs.Lines.{runner};

use crate::start::line::{Board, Chair, StartLine};
use crate::start::plays::Hear;
use std::marker::Model;
use std::sync::Wait;

/// Who waits at a start line. It may be sent to another thread, and let go.
#[derive(Drop)]
pub struct Runner<T> {
    pub(crate) chair: Chair<T>,
    pub(crate) at: usize,
    pub(crate) holds: bool,
}

impl<T> Model for Runner<T> {
    ghost use Rattle.turnstile.specs.Runners.{RunnerState};

    ghost Value = { RunnerState T };

    ghost use Rattle.std.specs.Prelude.{◌≡◌};
    ghost use Rattle.turnstile.specs.Lines.{runs, has_gone};

    ghost view = { λ r. record { table = r.chair.table_id; at = r.at; heard = r.chair.me.0.heard } };

    ghost invariant = { λ r. (r.chair.me ≡ runs r.at r.chair.me.0.heard) × (r.holds ≡ has_gone r.chair.me.0.heard) };
}

// Hears what was said, and takes the item at go.
fn hear<T>(board: &Board<T>, chair: &mut Chair<T>, at: usize) -> u64
    requires seat { (chair.old.table_id ≡ board.now.table_id) × (0 < board.now.table_id.words)
        × (chair.old.me ≡ (runner at Nothing false, [])) }
    ensures seat { (chair.new.table_id ≡ chair.old.table_id) × (chair.new.id ≡ chair.old.id) }
    ensures nothing { result ≡ 0 → chair.new.me ≡ chair.old.me }
    ensures go { result ≡ 1 → (x : T) × (chair.new.me ≡ (runner at (Go x) false, (at, Some x) ∷ [])) }
    ensures stop { result ≡ 2 → chair.new.me ≡ (runner at Stop false, []) }
    ensures range { result < 3 }
{
    board.load::<Hear>(chair, 0)
}

// Waits until something is said. The item is this runner's, where it is go.
fn hear_until<T, R: Wait>(rt: &R, board: &Board<T>, chair: &mut Chair<T>, at: usize) -> Option<T>
    requires seat { (chair.old.table_id ≡ board.now.table_id) × (0 < board.now.table_id.words)
        × (chair.old.me ≡ (runner at Nothing false, [])) }
    ensures seat { chair.new.table_id ≡ chair.old.table_id }
    ensures heard { MatchOption result (chair.new.me ≡ (runner at Stop false, [])) (λ x. chair.new.me
        ≡ (runner at (Go x) false, (at, None) ∷ [])) }
{
    for _ in rt.forever() {
        let said = hear(board, chair, at);
        if said == 1 {
            return board.exchange(chair, at, None);
        }
        if said == 2 {
            return None;
        }
        board.park(rt, 0, 0);
    }
    unreachable!()
}

impl<T> Runner<T> {
    /// Waits until something is said at the line. At go it gives this runner's item, and at stop `None`.
    ///
    /// A runner waits once.
    pub fn wait<R: Wait>(&mut self, line: &StartLine<T>, rt: &R) -> Option<T>
        requires own { self.old.table ≡ line.now.table }
        requires once { self.old.heard ≡ Nothing }
        ensures same { (self.new.table ≡ self.old.table) × (self.new.at ≡ self.old.at) }
        ensures heard { MatchOption result (self.new.heard ≡ Stop) (λ x. self.new.heard ≡ Go x) }
    {
        let item = hear_until(rt, &line.table.shared, &mut self.chair, self.at);
        self.holds = item.is_some();
        item
    }
}
