//! What the locals of processors hold at a fault.

ghost use Rattle.std.specs.Prelude.{◌≡◌, ◌++◌, IfOk, OnOk, map};
ghost use Rattle.std.specs.List.{flat_map};
ghost use Rattle.serde_json.specs.View.{view};
ghost use Rattle.journal.specs.Entries.{own_is};
ghost use Rattle.json_texts.specs.StepFacts as spec;

use crate::{Object, Value};
use help::local_name;
use journal::OwnLocals;
use pram_trees::Tree;
use std::alloc::{AllocError, Global};

// What a processor's local holds.
fn held_facts(alloc: Global, processor: i64, name: &[u8], held: i64) -> Result<Value, AllocError>
    ensures { IfOk result (λ v. view v ≡ spec.held_facts processor name.now held) }
{
    let mut object = Object::new(alloc);
    object.put_value("processor", processor)?;
    object.put_letters("local", name)?;
    object.put_value("value", held)?;
    Ok(object.into_value())
}

// Those of one processor, put behind the others.
#[tactic(auto, using(crate::proofs::HeldLocals::held_start, crate::proofs::HeldLocals::held_go, crate::proofs::HeldLocals::held_end))]
fn add_held(
    alloc: Global,
    list: &mut Vec<Value>,
    tree: &Tree,
    at: u32,
    own: &OwnLocals,
) -> Result<(), AllocError>
    ensures { OnOk result (map view list.new.items ≡ map view list.old.items ++ spec.own_facts tree.now at (own_is own.now)) }
{
    let mut number = 0;
    for held in &own.values {
        let name = local_name(tree, at, number);
        list.push(held_facts(alloc, own.processor, name, *held)?)?;
        number += 1;
    }
    Ok(())
}

/// Those of some processors, of a statement that stands at this offset.
#[tactic(auto, using(crate::proofs::HeldLocals::own_start, crate::proofs::HeldLocals::own_go, crate::proofs::HeldLocals::own_end))]
pub(crate) fn own_facts(
    alloc: Global,
    tree: &Tree,
    at: u32,
    locals: &[OwnLocals],
) -> Result<Vec<Value>, AllocError>
    ensures { IfOk result (λ list. map view list.items ≡ flat_map (spec.own_facts tree.now at) (map own_is locals.now)) }
{
    let mut list = Vec::new(alloc);
    for own in locals {
        add_held(alloc, &mut list, tree, at, own)?;
    }
    Ok(list)
}
