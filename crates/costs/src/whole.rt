//! A whole run.

ghost use Rattle.std.specs.Prelude.{◌≡◌, ◌↔◌, ◌<◌, ◌≤◌, IfOk, length};
ghost use Rattle.pram_model.specs.Layout.{total_size};
ghost use Rattle.write_rules.specs.Verdict.{verdict_of};
ghost use Rattle.pram_meaning.specs.Outcome.{IsOutcome};
ghost use Rattle.costs.specs.Communication.{outside};
ghost use Rattle.costs.specs.Cost.{reads};
ghost use Rattle.costs.specs.Counted.{counted};
ghost use Rattle.costs.specs.Ledgers.{ledger_is};

use crate::ledger::Ledger;
use crate::meter::Meter;
use observing::{Watch, observe_watched};
use pram_check::Program;
use pram_meaning::MeaningRefusal;
use std::alloc::Global;
use write_rules::Outcome;

/// The outcome of a program on an input, what was counted of its run, and how many of the reads were made outside pardo. The watch is told
/// how far the run is.
pub fn run_whole<V: Watch>(
    alloc: Global,
    program: &Program,
    input: &[i64],
    bound: u32,
    schedule: u32,
    watch: &mut V,
) -> Result<(Outcome, Ledger, u128), MeaningRefusal>
    requires some { 0 < schedule }
    ensures outcome { IfOk result (λ r. IsOutcome program.now input.now bound (verdict_of r.0)) }
    ensures fits { IfOk result (λ r. length input.now ≤ total_size program.now.layout) }
    ensures too_long { (result ≡ Err MeaningRefusal.InputTooLong) ↔ (total_size program.now.layout < length input.now) }
    ensures totals { IfOk result (λ r. ledger_is r.1 ≡ counted program.now input.now bound schedule) }
    ensures outer_reads { IfOk result (λ r. r.2 ≡ reads (outside program.now input.now bound)) }
{
    let meter = Meter {
        schedule,
        ledger: Ledger::new(alloc),
        outer_reads: 0,
    };
    let (meter, done) = observe_watched(alloc, program, input, bound, meter, watch);
    let outcome = done?;
    Ok((outcome, meter.ledger, meter.outer_reads))
}
