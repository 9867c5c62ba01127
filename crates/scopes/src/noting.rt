//! How one run more is noted.

ghost use Rattle.std.specs.Prelude.{◌≡◌, ◌+◌, ◌<◌, ◌^◌, map, OnOk};
ghost use Rattle.std.specs.List.{list_any};
ghost use Rattle.write_rules.specs.Verdict.{verdict_of};
ghost use Rattle.scopes.specs.Firsts.{are_alike, noted};
ghost use Rattle.scopes.specs.Found.{added, ended_more, ended_so, faulted_more, found_is, going_on_more, met_is, nothing, skipped};

use crate::findings::{Findings, FoundFault};
use crate::keeping::keep_input;
use crate::kinds::is_alike;
use crate::span::with_number;
use std::alloc::{AllocError, Global};
use write_rules::{Fault, Outcome};

/// Whether a fault like this one was met.
pub(crate) fn is_met(faults: &[FoundFault], fault: Fault) -> bool
    ensures { result ≡ list_any (λ m. are_alike m.fault fault) (map met_is faults.now) }
{
    for found in faults {
        if is_alike(found.fault, fault) {
            return true;
        }
    }
    false
}

// Keeps a fault and its input, where none like it was met before.
fn keep_fault(
    alloc: Global,
    faults: &mut Vec<FoundFault>,
    fault: Fault,
    input: &[i64],
) -> Result<(), AllocError>
    ensures { OnOk result (map met_is faults.new.items
        ≡ noted (map met_is faults.old.items) (record { fault = fault; input = input.now })) }
{
    if is_met(faults.as_slice(), fault) {
        return Ok(());
    }
    let mut copy = Vec::new(alloc);
    copy.extend_from_slice(input)?;
    faults.push(FoundFault { fault, input: copy })?;
    Ok(())
}

impl Findings {
    /// What is found of no run.
    pub fn new(alloc: Global) -> Findings
        ensures { found_is result ≡ nothing }
    {
        Findings {
            inputs: 0,
            counting: 0,
            ended: 0,
            faulted: 0,
            go_on: 0,
            failed: 0,
            faults: Vec::new(alloc),
            goes_on_at: None,
            fails_at: None,
            time: None,
            work: None,
        }
    }

    /// Notes an input that doesn't count.
    pub(crate) fn skip(&mut self)
        requires room { self.old.inputs + 1 < 2 ^ 64 }
        ensures { found_is self.new ≡ skipped (found_is self.old) }
    {
        self.inputs += 1;
    }

    // A run that ended, and whether it failed.
    fn add_end(
        &mut self,
        alloc: Global,
        time: u64,
        work: u64,
        fails: bool,
        input: &[i64],
    ) -> Result<(), AllocError>
        requires room { self.old.inputs + 1 < 2 ^ 64 }
        ensures { OnOk result (found_is self.new ≡ ended_so fails input.now (ended_more time work (found_is self.old))) }
    {
        if fails {
            keep_input(alloc, &mut self.fails_at, input)?;
        }
        self.time = Some(with_number(self.time, time));
        self.work = Some(with_number(self.work, work));
        self.failed += u64::from(fails);
        self.ended += 1;
        self.counting += 1;
        self.inputs += 1;
        Ok(())
    }

    // A run that faulted.
    fn add_fault(&mut self, alloc: Global, fault: Fault, input: &[i64]) -> Result<(), AllocError>
        requires room { self.old.inputs + 1 < 2 ^ 64 }
        ensures { OnOk result (found_is self.new ≡ faulted_more fault input.now (found_is self.old)) }
    {
        keep_fault(alloc, &mut self.faults, fault, input)?;
        self.faulted += 1;
        self.counting += 1;
        self.inputs += 1;
        Ok(())
    }

    // A run that went on at its bound.
    fn add_going_on(&mut self, alloc: Global, input: &[i64]) -> Result<(), AllocError>
        requires room { self.old.inputs + 1 < 2 ^ 64 }
        ensures { OnOk result (found_is self.new ≡ going_on_more input.now (found_is self.old)) }
    {
        keep_input(alloc, &mut self.goes_on_at, input)?;
        self.go_on += 1;
        self.counting += 1;
        self.inputs += 1;
        Ok(())
    }

    /// Notes a run on an input more that counts: how it came out, its time and work, and whether it fails where it ended.
    pub(crate) fn add(
        &mut self,
        alloc: Global,
        outcome: &Outcome,
        time: u64,
        work: u64,
        fails: bool,
        input: &[i64],
    ) -> Result<(), AllocError>
        requires room { self.old.inputs + 1 < 2 ^ 64 }
        ensures { OnOk result (found_is self.new ≡ added (verdict_of outcome.now) time work fails input.now (found_is self.old)) }
    {
        match outcome {
            Outcome::Ended { .. } => self.add_end(alloc, time, work, fails, input)?,
            Outcome::Faulted { fault, .. } => self.add_fault(alloc, *fault, input)?,
            Outcome::GoesOn { .. } => self.add_going_on(alloc, input)?,
        }
        Ok(())
    }
}
