//! What events spend on exchanges.

ghost use Rattle.std.specs.Prelude.{◌≡◌, ◌+◌, [], ◌∷◌, IfOk, None, OnOk, not, ◌&&◌, ◌||◌};
ghost use Rattle.exchange_bound.specs.Bound.{one_if};
ghost use Rattle.exchange_bound.specs.Events.{Cut, Runs, Votes};
ghost use Rattle.exchange_bound.specs.Spent.{any_level};
ghost use Rattle.costs.specs.Ledgers.{spending_is};
ghost use Rattle.costs.specs.Spending.{closed, spend, unspent};

use crate::exchanges::Exchanges;
use crate::too_many::TooMany;

// One exchange, if so.
fn one_if(so: bool) -> u128
    ensures { result ≡ one_if so }
{
    if so { 1 } else { 0 }
}

fn has_reads(levels: u64) -> bool
    ensures { result ≡ any_level levels }
{
    levels > 0
}

// Whether what was held back goes alone, since a statement writes that has no reads.
fn goes_alone(held: bool, writes: bool, reads: bool) -> bool
    ensures { result ≡ (held && writes && not reads) }
{
    held && writes && !reads
}

// Whether something is held back behind a statement.
fn is_held(held: bool, writes: bool, reads: bool) -> bool
    ensures { result ≡ (writes || (held && not reads)) }
{
    writes || (held && !reads)
}

impl Exchanges {
    /// Before the first event.
    pub fn new() -> Exchanges
        ensures { spending_is result ≡ unspent }
    {
        Exchanges {
            count: 0,
            held: false,
        }
    }

    fn add(&mut self, more: u128) -> Result<(), TooMany>
        ensures count { OnOk result (self.new.count ≡ self.old.count + more) }
        ensures held { self.new.held ≡ self.old.held }
    {
        let Some(count) = self.count.checked_add(more) else {
            return Err(TooMany);
        };
        self.count = count;
        Ok(())
    }

    /// A statement, with the levels of its shared reads, that may write to shared memory: the reads
    /// send what was held back, and a write is held back.
    pub fn run(&mut self, levels: u64, writes: bool) -> Result<(), TooMany>
        ensures { OnOk result (spending_is self.new ≡ spend (Runs levels writes None 0) (spending_is self.old)) }
    {
        let reads = has_reads(levels);
        let alone = goes_alone(self.held, writes, reads);
        self.add(2 * u128::from(levels) + one_if(alone))?;
        self.held = is_held(self.held, writes, reads);
        Ok(())
    }

    /// A place where what was written has to be sent.
    pub fn cut(&mut self) -> Result<(), TooMany>
        ensures { OnOk result (spending_is self.new ≡ spend Cut (spending_is self.old)) }
    {
        self.add(one_if(self.held))?;
        self.held = false;
        Ok(())
    }

    /// A vote whether a loop of processors goes on.
    pub fn vote(&mut self) -> Result<(), TooMany>
        ensures { OnOk result (spending_is self.new ≡ spend Votes (spending_is self.old)) }
    {
        self.add(1)
    }

    /// With one for a write that is still held back, and one for the close of the run.
    pub fn close(&self) -> Result<u128, TooMany>
        ensures { IfOk result (λ most. most ≡ closed (spending_is self.now)) }
    {
        let mut all = *self;
        all.add(1 + one_if(self.held))?;
        Ok(all.count)
    }
}
