//! The exchanges of a run, as its workers counted them.

ghost use Rattle.std.specs.Prelude.{◌≡◌, ◌≤◌, ◌<◌, ℕ, length, slice_index_or};
ghost use Rattle.superstep_machine.specs.Trace.{relation_of};
ghost use Rattle.superstep_machine.specs.Purposes.{purpose_is};
ghost use Rattle.exchange_counts.specs.Columns.{columns_of, AreColumns};
ghost use Rattle.exchange_counts.specs.CountedExchanges.{exchanges_told, exchange_at};

use crate::count::Count;
use std::marker::Model;
use superstep_machine::Purpose;

/// The exchanges of a run, as its workers counted them: one worker at least, and each counted as many exchanges.
#[derive(Drop)]
pub struct Counts {
    columns: Vec<Vec<Count>>,
}

impl Model for Counts {
    ghost use Rattle.std.specs.Prelude.{List};
    ghost use Rattle.superstep_machine.specs.Trace.{Exchange};

    ghost Value = { List Exchange };

    ghost use Rattle.exchange_counts.specs.CountsFields.{shown, AreShown};

    ghost view = { shown };

    ghost invariant = { AreShown };
}

impl Counts {
    /// From the counts of each worker, in order of workers.
    pub fn of_columns(columns: Vec<Vec<Count>>) -> Counts
        requires { AreColumns (columns_of columns.items) }
        // What is told are the exchanges that all workers counted, in order.
        ensures told { result ≡ exchanges_told (columns_of columns.items) }
    {
        Counts { columns }
    }

    /// How many exchanges there are.
    pub fn len(&self) -> usize
        // The answer is how many exchanges there are.
        ensures { result ≡ length self.now }
    {
        self.columns[0].len()
    }

    /// How many workers counted them.
    pub fn workers(&self) -> usize
        ensures some { 0 < result }
        // Each exchange has the words that so many workers sent.
        ensures sent { (k : ℕ) → 1 ≤ k → k ≤ length self.now → length (exchange_at self.now k).sent ≡ result }
        // Each exchange has the words that so many workers received.
        ensures received { (k : ℕ) → 1 ≤ k → k ≤ length self.now → length (exchange_at self.now k).received ≡ result }
    {
        self.columns.len()
    }

    // What a worker counted at an exchange, from 1.
    fn count(&self, k: usize, w: usize) -> Count
        requires first { 1 ≤ k }
        requires last { k ≤ length self.now }
        requires worker { w < length (exchange_at self.now k).sent }
        ensures sent { result.sent ≡ slice_index_or (exchange_at self.now k).sent w 0 }
        ensures received { result.received ≡ slice_index_or (exchange_at self.now k).received w 0 }
        ensures purpose { w ≡ 0 → purpose_is result.purpose ≡ (exchange_at self.now k).purpose }
    {
        self.columns[w][k - 1]
    }

    /// What an exchange was for, and its h: no worker sent or received more words in it. Exchanges are counted from 1.
    pub fn exchange(&self, k: usize) -> (Purpose, u64)
        requires first { 1 ≤ k }
        requires last { k ≤ length self.now }
        // What the exchange was for is told.
        ensures purpose { purpose_is result.0 ≡ (exchange_at self.now k).purpose }
        // The h that is told is the most words that one worker sent or received in the exchange.
        ensures relation { result.1 ≡ relation_of (exchange_at self.now k) }
    {
        let workers = self.workers();
        let purpose = self.count(k, 0).purpose;
        let mut sent: u64 = 0;
        let mut received: u64 = 0;
        'workers: for w in 0..workers {
            sent = sent.max(self.sent(k, w));
            received = received.max(self.received(k, w));
        }
        (purpose, sent.max(received))
    }

    /// How many words a worker sent in an exchange. Exchanges are counted from 1, workers from 0.
    pub fn sent(&self, k: usize, w: usize) -> u64
        requires first { 1 ≤ k }
        requires last { k ≤ length self.now }
        requires worker { w < length (exchange_at self.now k).sent }
        // The answer is how many words the worker sent in the exchange.
        ensures { result ≡ slice_index_or (exchange_at self.now k).sent w 0 }
    {
        self.count(k, w).sent
    }

    /// How many words a worker received in an exchange. Exchanges are counted from 1, workers from 0.
    pub fn received(&self, k: usize, w: usize) -> u64
        requires first { 1 ≤ k }
        requires last { k ≤ length self.now }
        requires worker { w < length (exchange_at self.now k).sent }
        // The answer is how many words the worker received in the exchange.
        ensures { result ≡ slice_index_or (exchange_at self.now k).received w 0 }
    {
        self.count(k, w).received
    }
}
