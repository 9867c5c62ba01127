//! What the workers counted.

ghost use Rattle.std.specs.Prelude.{◌≡◌, ◌≤◌, [], length, vec_capacity, true, IfSome, IsSome};
ghost use Rattle.exchange_counts.specs.Columns.{columns_of, AreColumns};
ghost use Rattle.exchange_counts.specs.CountedExchanges.{exchanges_told};
ghost use Rattle.exchange_counts.specs.Tallies.{is_kept, rows_of};
ghost use Rattle.bsp_machine.specs.Workers.{AreKept};
ghost use Rattle.bsp_machine.specs.Ended.{counts_of};

use crate::counted::CountedWorker;
use exchange_counts::{Count, Counts};

// What a worker counted, where it kept that. The rest of the worker is let go in this function alone.
fn rows_kept(worker: CountedWorker) -> Option<Vec<Count>>
    ensures kept { is_kept worker.counts ≡ true → IsSome result }
    ensures rows { IfSome result (λ rows. (is_kept worker.counts ≡ true) × (rows.items ≡ rows_of worker.counts)) }
{
    worker.counts.into_rows()
}

// Takes in what each worker counted, in their order, and says whether each has kept it. There is room for that.
fn take_columns(workers: Vec<CountedWorker>, columns: &mut Vec<Vec<Count>>) -> bool
    requires none { columns.old.items ≡ [] }
    requires room { length workers.items ≤ vec_capacity columns.old }
    ensures taken { result ≡ true → AreKept true workers.items × (columns_of columns.new.items ≡ counts_of workers.items) }
    ensures all { AreKept true workers.items → result ≡ true }
{
    for worker in workers {
        match rows_kept(worker) {
            Some(rows) => columns.push_reserved(rows),
            None => return false,
        }
    }
    true
}

/// The exchanges that these workers counted, if each has kept them. There is room for their columns.
pub(crate) fn counts_in(workers: Vec<CountedWorker>, mut columns: Vec<Vec<Count>>) -> Option<Counts>
    requires none { columns.items ≡ [] }
    requires room { length workers.items ≤ vec_capacity columns }
    requires columns { AreKept true workers.items → AreColumns (counts_of workers.items) }
    ensures told { IfSome result (λ counts. AreKept true workers.items × (counts ≡ exchanges_told (counts_of workers.items))) }
    ensures all { AreKept true workers.items → IsSome result }
{
    if take_columns(workers, &mut columns) {
        Some(Counts::of_columns(columns))
    } else {
        None
    }
}
