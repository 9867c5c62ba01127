//! Accepted programs.

ghost use Rattle.std.specs.Prelude.{◌≡◌, ◌∷◌, [], IfOk, OnOk, string_bytes};
ghost use Rattle.json_texts.specs.Facts.{with_fields};
ghost use Rattle.json_texts.specs.Lines.{IsJson};
ghost use Rattle.json_texts.specs.Shown.{shown};
ghost use Rattle.json_texts.specs.AcceptedFacts as spec;

use crate::{Object, Value, line_of};
use pram_check::Program;
use std::alloc::{AllocError, Global};

fn put_accepted(object: &mut Object, program: &Program) -> Result<(), AllocError>
    ensures { OnOk result (shown object.new ≡ with_fields (spec.accepted_fields program.now) (shown object.old)) }
{
    object.put("accepted", Value::Bool(true))?;
    object.put_count("cells", u64::from(program.layout().cells()))?;
    object.put_count("procs", u64::from(program.procs()))?;
    object.put_word("rule", program.rule().word())
}

/// That a program is accepted, on a line: `{"accepted":true,"cells":16,"procs":8,"rule":"erew"}`.
pub fn json_accepted(alloc: Global, program: &Program) -> Result<String, AllocError>
    // The line is exactly the facts of an accepted program, and read as JSON it is these facts again.
    ensures json { IfOk result (λ text. IsJson (spec.accepted_facts program.now ∷ []) (string_bytes text)) }
{
    let mut object = Object::new(alloc);
    put_accepted(&mut object, program)?;
    line_of(alloc, &object.into_value())
}
