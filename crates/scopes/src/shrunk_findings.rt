//! Findings that are told with smaller inputs.

ghost use Rattle.std.specs.Prelude.{◌≡◌, ◌↔◌, ◌<◌, Err, IfOk, OnErr, OnOk, map, true};
ghost use Rattle.std.specs.List.{All};
ghost use Rattle.std.specs.Option.{option_map};
ghost use Rattle.scopes.specs.declared.wrong.Wrong.TheVariants.{Faults};
ghost use Rattle.scopes.specs.Found.{found, found_is, met_is, values_of};
ghost use Rattle.scopes.specs.Scopes.{inputs_of};
ghost use Rattle.scopes.specs.Specified.{most_values};
ghost use Rattle.scopes.specs.Shrunk as spec;
ghost use Rattle.scopes.specs.Wrong as wrongs;

use crate::affirming::most_values;
use crate::findings::{Findings, FoundFault};
use crate::going_wrong::fault_on;
use crate::shrinking::shrink;
use crate::{Scope, Specification, Wrong};
use pram_check::Program;
use pram_meaning::MeaningRefusal;
use std::alloc::Global;

// A fault with what its input shrinks to.
fn shrunk_fault(
    alloc: Global,
    program: &Program,
    specification: &Specification,
    scope: Scope,
    bound: u32,
    found: &FoundFault,
) -> Result<FoundFault, MeaningRefusal>
    requires told { wrongs.goes_wrong scope specification.now program.now bound (Faults found.now.fault) found.now.input.items ≡ true }
    ensures { IfOk result (λ r. spec.IsShrunkMet scope specification.now program.now bound (met_is found.now) (met_is r)) }
{
    let mut input = Vec::from_slice(alloc, found.input.as_slice())?;
    let wrong = Wrong::Faults(found.fault);
    shrink(
        alloc,
        program,
        specification,
        scope,
        bound,
        wrong,
        input.as_mut_slice(),
    )?;
    let met = fault_on(alloc, program, input.as_slice(), bound)?;
    Ok(FoundFault {
        fault: met.unwrap_or(found.fault),
        input,
    })
}

// The same of each fault, in the same order.
fn shrunk_faults(
    alloc: Global,
    program: &Program,
    specification: &Specification,
    scope: Scope,
    bound: u32,
    faults: &[FoundFault],
) -> Result<Vec<FoundFault>, MeaningRefusal>
    requires told { All (λ m. wrongs.goes_wrong scope specification.now program.now bound (Faults m.fault) m.input ≡ true)
        (map met_is faults.now) }
    ensures { IfOk result (λ r. spec.AreShrunkMet scope specification.now program.now bound (map met_is faults.now) (map met_is r.items)) }
{
    let mut shrunk = Vec::new(alloc);
    for found in faults {
        let smaller = shrunk_fault(alloc, program, specification, scope, bound, found)?;
        let Ok(()) = shrunk.push(smaller) else {
            return Err(MeaningRefusal::OutOfMemory);
        };
    }
    Ok(shrunk)
}

// What an input shrinks to, where one is told.
fn shrunk_input(
    alloc: Global,
    program: &Program,
    specification: &Specification,
    scope: Scope,
    bound: u32,
    wrong: Wrong,
    told: &Option<Vec<i64>>,
) -> Result<Option<Vec<i64>>, MeaningRefusal>
    ensures { IfOk result (λ r. spec.IsShrunkInput (wrongs.goes_wrong scope specification.now program.now bound wrong)
        (option_map values_of told.now) (option_map values_of r)) }
{
    let Some(told) = told else {
        return Ok(None);
    };
    let mut input = Vec::from_slice(alloc, told.as_slice())?;
    shrink(
        alloc,
        program,
        specification,
        scope,
        bound,
        wrong,
        input.as_mut_slice(),
    )?;
    Ok(Some(input))
}

impl Findings {
    // The same is told with smaller inputs.
    fn shrink_told(
        &mut self,
        alloc: Global,
        program: &Program,
        specification: &Specification,
        scope: Scope,
        bound: u32,
    ) -> Result<(), MeaningRefusal>
        requires found { found_is self.old ≡ found specification.now program.now bound (inputs_of scope) }
        ensures shrunk { OnOk result
            (spec.AreShrunk scope specification.now program.now bound (found_is self.old) (found_is self.new)) }
        ensures kept { OnErr result (found_is self.new ≡ found_is self.old) }
    {
        let goes_on = shrunk_input(
            alloc,
            program,
            specification,
            scope,
            bound,
            Wrong::GoesOn,
            &self.goes_on_at,
        )?;
        let fails = shrunk_input(
            alloc,
            program,
            specification,
            scope,
            bound,
            Wrong::Fails,
            &self.fails_at,
        )?;
        let faults = self.faults.as_slice();
        self.faults = shrunk_faults(alloc, program, specification, scope, bound, faults)?;
        self.goes_on_at = goes_on;
        self.fails_at = fails;
        Ok(())
    }

    /// Makes the inputs smaller that are told of what was found on all inputs of a scope: each is told as what it shrinks to while the same
    /// goes wrong, and a fault as that of the run on this. E11 where an input has more values than the program has cells, or the
    /// precondition; E16 only where memory was refused. Behind an error all is told as before.
    pub fn shrink(
        &mut self,
        alloc: Global,
        program: &Program,
        specification: &Specification,
        scope: Scope,
        bound: u32,
    ) -> Result<(), MeaningRefusal>
        requires found { found_is self.old ≡ found specification.now program.now bound (inputs_of scope) }
        // The same is told with what each input shrinks to, by a fixed order of smaller ones, while the same goes wrong.
        ensures shrunk { OnOk result
            (spec.AreShrunk scope specification.now program.now bound (found_is self.old) (found_is self.new)) }
        // Behind an error all is told as before.
        ensures kept { OnErr result (found_is self.new ≡ found_is self.old) }
        // The inputs are refused as too long exactly where they have more values than the program has cells, or the
        // precondition.
        ensures too_long { (result ≡ Err MeaningRefusal.InputTooLong)
            ↔ (most_values specification.now.precondition program.now < scope.count) }
    {
        if scope.count > most_values(&specification.precondition, program) {
            return Err(MeaningRefusal::InputTooLong);
        }
        let Ok(()) = self.shrink_told(alloc, program, specification, scope, bound) else {
            return Err(MeaningRefusal::OutOfMemory);
        };
        Ok(())
    }
}
