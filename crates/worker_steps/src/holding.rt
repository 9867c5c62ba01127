//! What is held for the next exchange.

ghost use Rattle.std.specs.Prelude.{◌≡◌, ◌≤◌, ◌<◌, ◌+◌, ◌^◌, ◌∷◌, [], ℕ, Some, length};
ghost use Rattle.superstep_machine.specs.Worker.{by_processor};
ghost use Rattle.instruction_steps.specs.Views.{uniform_of};
ghost use Rattle.combining.specs.Held.{held_after};
ghost use Rattle.combining.specs.Adding.{by_read, asked_after};
ghost use Rattle.worker_bank.specs.Bank.{number_of, IsBank};
ghost use Rattle.worker_bank.specs.Cells.{cell_in};
ghost use Rattle.worker_steps.specs.Held.{cells_of, made, writes_of};

use crate::noting::number;
use combining::{Asks, Puts, Writes};
use instruction_steps::{UniformState, index_of, value_at, write_to};
use worker_bank::Bank;
use write_rules::WriteRule;

/// Holds the ask by a read of that number for a cell, if there is one.
#[inline(always)]
pub fn hold_ask(asks: &mut Asks, ordinal: u32, cell: Option<u32>)
    requires ordinal { ordinal < 8 }
    requires below { (c : ℕ) → cell ≡ Some c → c < 2 ^ 20 }
    requires room { length asks.old.held < asks.old.room }
    ensures held { asks.new.held ≡ asked_after (by_read ordinal (cell ∷ [])) asks.old.held }
    ensures few { length asks.new.held ≤ length asks.old.held + 1 }
    ensures room { asks.new.room ≡ asks.old.room }
{
    if let Some(c) = cell {
        let _place = asks.add(ordinal, c);
    }
}

/// Holds the asks of the first processors by a read of that number.
pub fn hold_asks(asks: &mut Asks, ordinal: u32, cells: &[Option<u32>], many: usize)
    requires count { many ≤ length cells.now }
    requires ordinal { ordinal < 8 }
    requires below { (j cell : ℕ) → j < many → cell_in cells.now j ≡ Some cell → cell < 2 ^ 20 }
    requires room { length asks.old.held + many ≤ asks.old.room }
    ensures held { asks.new.held ≡ asked_after (by_read ordinal (cells_of cells.now many)) asks.old.held }
    ensures few { length asks.new.held ≤ length asks.old.held + many }
    ensures room { asks.new.room ≡ asks.old.room }
{
    let first = asks.add_ascending(ordinal, &cells[..many]);
    'processors: for j in first..many {
        hold_ask(asks, ordinal, cells[j]);
    }
}

/// Holds the write of a processor, if there is one.
#[inline(always)]
pub fn hold_write<R: WriteRule>(
    puts: &mut Puts,
    rule: &R,
    processor: i64,
    write: Option<(u32, i64)>,
)
    requires room { length puts.old.held < puts.old.room }
    ensures held { puts.new.held ≡ held_after (R.WriteRule.rule rule.now) (made (by_processor processor write ∷ [])) puts.old.held }
    ensures few { length puts.new.held ≤ length puts.old.held + 1 }
    ensures room { puts.new.room ≡ puts.old.room }
{
    if let Some((cell, value)) = write {
        puts.add(rule, cell, processor, value);
    }
}

// The writes of a worker's processors: of a value each, to a cell each.
#[derive(Drop)]
struct RowWrites<'a> {
    u: &'a UniformState,
    bank: &'a Bank,
    cells: &'a [Option<u32>],
    values: &'a [i64],
}

impl<'a> Writes for RowWrites<'a> {
    ghost use Rattle.std.specs.Prelude.{◌<◌, ◌≤◌, ℕ, length};
    ghost use Rattle.superstep_machine.specs.Steps.{index_of as spec_index_of, write_to as spec_write_to};
    ghost use Rattle.instruction_steps.specs.Views.{uniform_of};
    ghost use Rattle.worker_bank.specs.Bank.{number_of, IsBank};
    ghost use Rattle.worker_bank.specs.Cells.{cell_in};
    ghost use Rattle.worker_bank.specs.Columns.{value_of};

    ghost number = { λ x j. spec_index_of (uniform_of x.u.now) (number_of x.bank.now j) };

    ghost written = { λ x j. spec_write_to (cell_in x.cells.now j) (value_of x.values.now j) };

    ghost has = { λ x j. IsBank x.bank.now × (j < x.bank.now.masks.many) × (number_of x.bank.now j < x.u.now.width)
        × (x.bank.now.masks.many ≤ length x.cells.now) };

    #[inline(always)]
    fn processor(&self, place: usize) -> i64 {
        index_of(self.u, number(self.u, self.bank, place))
    }

    #[inline(always)]
    fn write(&self, place: usize) -> Option<(u32, i64)> {
        write_to(self.cells[place], value_at(self.values, place))
    }
}

/// Holds the writes of all processors: of a value each, to a cell each.
pub fn hold_writes<R: WriteRule>(
    puts: &mut Puts,
    rule: &R,
    u: &UniformState,
    bank: &Bank,
    cells: &[Option<u32>],
    values: &[i64],
)
    requires bank { IsBank bank.now }
    requires cells { bank.now.masks.many ≤ length cells.now }
    requires below { (j : ℕ) → j < bank.now.masks.many → number_of bank.now j < u.now.width }
    requires room { length puts.old.held + bank.now.masks.many ≤ puts.old.room }
    ensures held { puts.new.held ≡ held_after (R.WriteRule.rule rule.now)
        (writes_of (uniform_of u.now) bank.now cells.now values.now bank.now.masks.many) puts.old.held }
    ensures room { puts.new.room ≡ puts.old.room }
{
    let row = RowWrites {
        u,
        bank,
        cells,
        values,
    };
    let first = puts.add_ascending(rule, &row, bank.masks.many);
    'processors: for j in first..bank.masks.many {
        let write = write_to(cells[j], value_at(values, j));
        let index = index_of(u, number(u, bank, j));
        hold_write(puts, rule, index, write);
    }
}
