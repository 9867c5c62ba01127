// The line.
ghost use Rattle.std.specs.Prelude.{◌≡◌, ◌<◌, ◌≤◌, ℕ, [], IfOk, slice_get, Some, vec_capacity, false};
ghost use Rattle.exchange_arena.specs.declared.block.TheConstants.{MAX_SIDE};
ghost use Rattle.turnstile.specs.declared.start.told.Told.TheVariants.{Nothing};
ghost use Rattle.turnstile.specs.Lines.{starter, Hears};
ghost use Rattle.turnstile.specs.Runners.{RunnerState, AreNewRunners, IsOver};

use crate::start::plays::{Hold, Lines, Seats};
use crate::start::runners::Runner;
use crate::start::starter::Starter;
use crate::start::taking::{empty_out, take_all};
use crate::start::told::Part;
use atomic_table::{Seat, Shared, Table};
use std::alloc::{AllocError, Global};
use std::marker::Model;

pub(crate) type Board<T> = Shared<Option<T>, Part<T>, usize, Lines>;

pub(crate) type Chair<T> = Seat<Option<T>, Part<T>>;

/// A line at which runners wait until one starter says go, with an item for each, or stop.
///
/// It may be lent to threads.
#[derive(Drop)]
pub struct StartLine<T> {
    pub(crate) table: Table<Option<T>, Part<T>, usize, Lines, Global>,
    pub(crate) runners: usize,
}

impl<T> Model for StartLine<T> {
    ghost use Rattle.turnstile.specs.Runners.{LineShape};

    ghost Value = { LineShape };

    ghost use Rattle.std.specs.Prelude.{◌≡◌};

    ghost view = { λ l. record { table = l.table.shared.table_id; runners = l.runners } };

    ghost invariant = { λ l. (l.table.shared.key ≡ l.runners) × (l.table.shared.table_id.words ≡ 1)
        × (l.table.shared.table_id.slots ≡ l.runners) };
}

impl<T> StartLine<T> {
    /// A line for so many runners, who starts it, and its runners, in order.
    ///
    /// The only error is that memory is refused, and then none of it is kept.
    pub fn new(
        alloc: Global,
        runners: usize,
    ) -> Result<(StartLine<T>, Starter<T>, Vec<Runner<T>>), AllocError>
        requires runners { (0 < runners) × (runners ≤ MAX_SIDE) }
        ensures count { IfOk result (λ made. made.0.runners ≡ runners) }
        ensures starter { IfOk result (λ made. (made.1.table ≡ made.0.table) × (made.1.said ≡ Nothing)) }
        ensures runners { IfOk result (λ made. AreNewRunners made.0.table runners made.2.items) }
    {
        let all = Vec::with_capacity(alloc, runners)?;
        let (table, mut chair) = Table::vacant(alloc, &[0], runners, &runners)?;
        let all = part(&table.shared, &mut chair, all, runners);
        table.shared.load::<Hold>(&mut chair, 0);
        Ok((StartLine { table, runners }, Starter { chair }, all))
    }

    /// Ends the line, and frees its memory. It takes none.
    ///
    /// After stop any runners may be given, and after go all are, in order, once they have waited. Each of them has heard
    /// what was said for it.
    pub fn close(self, starter: Starter<T>, runners: Vec<Runner<T>>)
        requires starter { starter.table ≡ self.table }
        requires runners { (k : ℕ) (r : RunnerState T) → slice_get runners.items k ≡ Some r → r.table ≡ self.table }
        requires over { IsOver self.runners starter.said runners.items }
        // Each runner has heard go with its own item, or stop, as it was said.
        ensures heard { (k : ℕ) (r : RunnerState T) → slice_get runners.items k ≡ Some r
            → Hears starter.said r.at r.heard }
    {
        let StartLine { table, runners: _ } = self;
        let Starter { mut chair } = starter;
        take_all(&table.shared, &mut chair, runners);
        empty_out(table.close_with(chair));
    }
}

// Makes the runners.
fn part<T>(
    board: &Board<T>,
    chair: &mut Chair<T>,
    all: Vec<Runner<T>>,
    runners: usize,
) -> Vec<Runner<T>>
    requires own { (chair.old.table_id ≡ board.now.table_id) × (board.now.key ≡ runners)
        × (0 < board.now.table_id.words) }
    requires fresh { (chair.old.me ≡ (starter 0 false Nothing [], [])) × (all.items ≡ [])
        × (runners ≤ vec_capacity all) }
    ensures own { (chair.new.table_id ≡ chair.old.table_id) × (chair.new.id ≡ chair.old.id)
        × (chair.new.me ≡ (starter runners false Nothing [], [])) }
    ensures runners { AreNewRunners chair.old.table_id runners result.items }
{
    let mut all = all;
    for at in 0..runners {
        let runner = Runner {
            chair: board.split_seat::<Seats>(chair),
            at,
            holds: false,
        };
        all.push_reserved(runner);
    }
    all
}
