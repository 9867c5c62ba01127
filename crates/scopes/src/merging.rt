//! What is found of two blocks of inputs, told as one.

ghost use Rattle.std.specs.Prelude.{◌≡◌, ◌+◌, ◌<◌, ◌^◌, map, Some, OnOk};
ghost use Rattle.std.specs.List.{fold};
ghost use Rattle.scopes.specs.Firsts.{noted};
ghost use Rattle.scopes.specs.Found.{found_is, met_is};
ghost use Rattle.scopes.specs.Merged.{merged};
ghost use Rattle.scopes.specs.Merged as spec;

use crate::findings::{Findings, FoundFault, Span};
use crate::keeping::keep_first;
use crate::noting::is_met;
use std::alloc::AllocError;

// The least and the greatest of both.
fn both_spans(span: Option<Span>, other: Option<Span>) -> Option<Span>
    ensures { result ≡ spec.both_spans span other }
{
    match span {
        None => other,
        Some(span) => match other {
            None => Some(span),
            Some(other) => Some(Span {
                least: span.least.min(other.least),
                greatest: span.greatest.max(other.greatest),
            }),
        },
    }
}

// Keeps a fault where none like it was met before.
fn keep_met(faults: &mut Vec<FoundFault>, found: FoundFault) -> Result<(), AllocError>
    ensures { OnOk result (map met_is faults.new.items ≡ noted (map met_is faults.old.items) (met_is found)) }
{
    if is_met(faults.as_slice(), found.fault) {
        return Ok(());
    }
    faults.push(found)?;
    Ok(())
}

fn keep_all(faults: &mut Vec<FoundFault>, others: Vec<FoundFault>) -> Result<(), AllocError>
    ensures { OnOk result (map met_is faults.new.items ≡ fold noted (map met_is faults.old.items) (map met_is others.items)) }
{
    'keeping: for found in others {
        keep_met(faults, found)?;
    }
    Ok(())
}

impl Findings {
    /// What is found of these inputs and of others behind them. Of the others' faults those are let go of whose kind at whose line was met
    /// before. The error is that memory was refused.
    pub fn append(&mut self, others: Findings) -> Result<(), AllocError>
        requires room { self.old.inputs + others.inputs < 2 ^ 64 }
        ensures { OnOk result (found_is self.new ≡ merged (found_is self.old) (found_is others)) }
    {
        keep_all(&mut self.faults, others.faults)?;
        keep_first(&mut self.goes_on_at, others.goes_on_at);
        keep_first(&mut self.fails_at, others.fails_at);
        self.time = both_spans(self.time, others.time);
        self.work = both_spans(self.work, others.work);
        self.ended += others.ended;
        self.faulted += others.faulted;
        self.go_on += others.go_on;
        self.failed += others.failed;
        self.counting += others.counting;
        self.inputs += others.inputs;
        Ok(())
    }
}
