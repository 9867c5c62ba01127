//! What a run comes to.

ghost use Rattle.std.specs.Prelude.{◌≡◌, ◌≤◌, ◌++◌, ◌∷◌, [], IfOk, OnOk, length, map};
ghost use Rattle.pram_model.specs.Layout.{total_size};
ghost use Rattle.superstep_machine.specs.Run as spec;
ghost use Rattle.flat_machine.specs.ByExchanges.{outcome_of};
ghost use Rattle.flat_machine.specs.Flat.{cells};
ghost use Rattle.instruction_steps.specs.Views.{registers_of};
ghost use Rattle.flat_run.specs.RunViews.{state_of, verdict_in};

use crate::machine::Machine;
use crate::run::{Run, Stand};
use std::alloc::{AllocError, Global};
use superstep_instructions::Code;
use superstep_machine::Key;
use write_rules::{Fault, Outcome};

fn fault_of(key: Key) -> Fault
    ensures { result ≡ spec.fault_of key }
{
    Fault {
        kind: key.kind,
        line: key.line,
        place: key.place,
    }
}

// One item, if it is of a statement before that count.
fn add_below(found: &mut Vec<i64>, count: u32, item: &(u32, i64)) -> Result<(), AllocError>
    ensures { OnOk result (found.new.items ≡ found.old.items ++ spec.items_below count (item.now ∷ [])) }
{
    if item.0 < count {
        found.push(item.1)?;
    }
    Ok(())
}

// The items of an output, those of statements before that count.
fn items_below(alloc: Global, count: u32, output: &[(u32, i64)]) -> Result<Vec<i64>, AllocError>
    ensures { IfOk result (λ found. found.items ≡ spec.items_below count output.now) }
{
    let mut found = Vec::new(alloc);
    for item in output {
        add_below(&mut found, count, item)?;
    }
    Ok(found)
}

// All items of an output.
fn items(alloc: Global, output: &[(u32, i64)]) -> Result<Vec<i64>, AllocError>
    ensures { IfOk result (λ found. found.items ≡ spec.items output.now) }
{
    let mut found = Vec::new(alloc);
    for item in output {
        found.push(item.1)?;
    }
    Ok(found)
}

// The values of the cells of the layout.
fn values(memory: Vec<i64>, code: &Code) -> Vec<i64>
    requires { total_size code.now.layout ≤ length memory.items }
    ensures { result.items ≡ map (registers_of memory.items) (cells code.now) }
{
    let mut memory = memory;
    memory.truncate(code.layout().cells() as usize);
    memory
}

// The output and the memory of a machine.
fn parted(machine: Machine) -> (Vec<(u32, i64)>, Vec<i64>)
    ensures output { result.0 ≡ machine.uniform.output }
    ensures memory { result.1 ≡ machine.memory }
{
    let Machine {
        uniform,
        processors: _,
        memory,
        held: _,
        key: _,
    } = machine;
    (uniform.output, memory)
}

/// What a run comes to, where that is an outcome.
pub fn outcome(alloc: Global, code: &Code, run: Run) -> Result<Option<Outcome>, AllocError>
    requires { total_size code.now.layout ≤ length run.machine.memory.items }
    ensures { IfOk result (λ o. verdict_in o ≡ outcome_of code.now (state_of run)) }
{
    let Run {
        machine,
        place: _,
        stand,
    } = run;
    let (output, memory) = parted(machine);
    match stand {
        Stand::Over {
            key: Some(key),
            ended: _,
        } => Ok(Some(Outcome::Faulted {
            fault: fault_of(key),
            output: items_below(alloc, key.count, &output)?,
        })),
        Stand::Over {
            key: None,
            ended: true,
        } => Ok(Some(Outcome::Ended {
            output: items(alloc, &output)?,
            memory: values(memory, code),
        })),
        Stand::Over {
            key: None,
            ended: false,
        } => Ok(Some(Outcome::GoesOn {
            output: items(alloc, &output)?,
        })),
        Stand::On | Stand::Lost => Ok(None),
    }
}
