//! Entering a statement that ran.

ghost use Rattle.std.specs.Prelude.{◌≡◌, ◌<◌, ◌≤◌, ◌^◌, OnOk, length};
ghost use Rattle.costs.specs.Accounts.{entered, opened};
ghost use Rattle.costs.specs.Ledgers.{ledger_is};

use crate::exchanges::Exchanges;
use crate::ledger::Ledger;
use crate::tally::Tally;
use crate::time_step::TimeStep;
use std::alloc::{AllocError, Global};

impl Ledger {
    /// Nothing has run.
    pub fn new(alloc: Global) -> Ledger
        ensures { ledger_is result ≡ opened }
    {
        Ledger {
            all: Tally::new(),
            lines: Vec::new(alloc),
            exchanges: Exchanges::new(),
        }
    }

    // Makes rows up to that line.
    fn make_row(&mut self, line: u32) -> Result<(), AllocError>
        ensures same { OnOk result (ledger_is self.new ≡ ledger_is self.old) }
        ensures row { OnOk result (line < length self.new.lines.items) }
    {
        let rows = line as usize + 1;
        if self.lines.len() < rows {
            self.lines.resize(rows, Tally::new())?;
        }
        Ok(())
    }

    /// One statement more, whose rounds are those on so many processors. The error is that memory was refused, or no number is left for
    /// its time.
    pub fn enter(&mut self, schedule: u32, step: &TimeStep) -> Result<(), AllocError>
        requires some { 0 < schedule }
        requires few { step.now.reads ≤ 2 ^ 96 }
        ensures { OnOk result (ledger_is self.new ≡ entered schedule step.now (ledger_is self.old)) }
    {
        if self.all.time == u32::MAX {
            return Err(AllocError);
        }
        self.make_row(step.line)?;
        let mut row = self.lines[step.line as usize];
        row.add(schedule, step);
        self.all.add(schedule, step);
        self.lines[step.line as usize] = row;
        Ok(())
    }
}
