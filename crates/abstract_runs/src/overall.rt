//! One run for all inputs of a scope.

ghost use Rattle.std.specs.Prelude.{◌≡◌, ◌≤◌, ◌++◌, ◌-◌, ℤ, pos, List, length, replicate, true, IfOk, IfErr, OnOk};
ghost use Rattle.write_rules.specs.Verdict.{Verdict};
ghost use Rattle.pram_meaning.specs.Bounded.{perform_list};
ghost use Rattle.pram_meaning.specs.Store.{State};
ghost use Rattle.pram_meaning.specs.Outcome as meant;
ghost use Rattle.pram_meaning.specs.Outcome.{Body, IsOutcome};
ghost use Rattle.pram_meaning.specs.Meaning.{Ends};
ghost use Rattle.all_inputs.specs.Overall.{Cover, Hold, IsInScope, IsToldOf, MayEndBehind};
ghost use Rattle.abstract_runs.specs.Halting.{Halts, HaveStatement, IsOpenAt};
ghost use Rattle.abstract_runs.specs.Leads.{Leads};
ghost use Rattle.abstract_runs.specs.Standing.{StandsFor};

use crate::halt::Halt;
use crate::hulls::hulls;
use crate::marks::marks_of;
use crate::standing::Standing;
use crate::survey::Survey;
use all_inputs::{Ending, Overall, Scope, Told};
use intervals::Interval;
use pram_check::Program;
use std::alloc::{AllocError, Global};

// More of the same interval, behind the others.
fn add_more(items: &mut Vec<Interval>, more: u32, value: Interval) -> Result<(), AllocError>
    ensures { OnOk result (items.new.items ≡ items.old.items ++ replicate more value) }
{
    items.resize(items.len() + more as usize, value)
}

// So many intervals, and behind them the number 0 alone.
fn opening_cells(alloc: Global, cells: u32, scope: Scope) -> Result<Vec<Interval>, AllocError>
    ensures { IfOk result (λ known. (input : List ℤ) → IsInScope scope input →
        Cover known.items (input ++ replicate (cells - length input) (pos 0))) }
{
    let mut known = vec![in alloc; scope.of; scope.values as usize]?;
    let more = cells.saturating_sub(scope.values);
    add_more(&mut known, more, Interval::point(0))?;
    Ok(known)
}

// What is known before the first statement.
fn opening(alloc: Global, program: &Program, scope: Scope) -> Result<Standing, AllocError>
    ensures { IfOk result (λ known. (input : List ℤ) → IsInScope scope input → StandsFor known (meant.opening program.now input)) }
{
    let uniforms = vec![in alloc; Interval::point(0); program.uniforms()]?;
    let cells = opening_cells(alloc, program.layout().cells(), scope)?;
    let origins = vec![in alloc; Interval::point(0); program.uniforms()]?;
    Ok(Standing {
        least: 0,
        most: 0,
        uniforms,
        cells,
        origins,
    })
}

// The whole body of the program; `false` where no run goes on.
fn run_body(survey: &Survey, known: &mut Standing, told: &mut Told) -> Result<bool, Halt>
    ensures leads { IfOk result (λ on. (m : State) → StandsFor known.old m → Leads (λ u n. (on ≡ true) × StandsFor known.new n) told.new
        (perform_list survey.now.program.now survey.now.bound survey.now.program.now.body m)) }
    ensures halts { IfErr result (Halts (λ u. HaveStatement (IsOpenAt u) survey.now.program.now.body)) }
{
    let body = survey.program.body();
    for k in 0..body.len() {
        let on = survey.run_statement(known, told, &body[k])?;
        if !on {
            return Ok(false);
        }
    }
    Ok(true)
}

// What is told of the runs that end in such a state.
fn ending(alloc: Global, program: &Program, known: Standing) -> Result<Ending, AllocError>
    ensures cells { IfOk result (λ end. (m : State) → StandsFor known m → Cover end.cells.items m.cells) }
    ensures declared { IfOk result (λ end. (m : State) → StandsFor known m → Hold program.now.layout end.declared.items m.cells) }
    ensures counts { IfOk result (λ end. (m : State) → StandsFor known m → (end.least ≤ m.count) × (m.count ≤ end.most)) }
{
    let declared = hulls(alloc, program.layout(), &known.cells)?;
    Ok(Ending {
        least: known.least,
        most: known.most,
        cells: known.cells,
        declared,
    })
}

/// Runs a program once for all inputs of a scope, within a bound on its statements.
pub fn run_for_all(
    alloc: Global,
    program: &Program,
    scope: Scope,
    bound: u32,
) -> Result<Overall, Halt>
    // The outcome of the program on each input of the scope is told: its fault by kind and line, that it goes on, or in what
    // intervals its memory ends.
    ensures told { IfOk result (λ overall. (input : List ℤ) (verdict : Verdict) → IsInScope scope input →
        IsOutcome program.now input bound verdict → IsToldOf program.now.layout overall verdict) }
    // A run that ends has as many statements as is told.
    ensures time { IfOk result (λ overall. (input : List ℤ) (m : State) → IsInScope scope input →
        Body program.now input (Ends tt m) → m.count ≤ bound → MayEndBehind overall m.count) }
    // It is undecided only at a loop of the program, or at a `for` or a pardo whose bounds aren't both written as numbers.
    ensures undecided { IfErr result (Halts (λ u. HaveStatement (IsOpenAt u) program.now.body)) }
{
    let marks = marks_of(alloc, program, scope.of, bound)?;
    let mut known = opening(alloc, program, scope)?;
    let mut told = Told::nothing(alloc);
    let survey = Survey {
        alloc,
        program,
        bound,
        marks: marks.as_slice(),
    };
    if !run_body(&survey, &mut known, &mut told)? {
        return Ok(Overall { told, end: None });
    }
    let end = ending(alloc, program, known)?;
    Ok(Overall {
        told,
        end: Some(end),
    })
}
