//! The first input on which something goes wrong is written, and that is said.

ghost use Rattle.std.specs.Prelude.{◌≡◌, Some, OnOk, map};
ghost use Rattle.std.specs.Option.{option_map};
ghost use Rattle.std.specs.String.{string_bytes};
ghost use Rattle.memory_texts.specs.InputText as texts;
ghost use Rattle.command_files.specs.WitnessLeft as left;
ghost use Rattle.command_files.specs.Witness as spec;

use crate::choosing::first_wrong;
use command_facts::{Settled, Voice, halted_write};
use memory_texts::input_text;
use program_texts::Status;
use std::alloc::Global;
use system_files::{Sources, WriteRefused};
use text_out::Out;

// The first input on which something goes wrong, of an exploration.
fn wrong_of<'a>(found: &'a Settled<'_>) -> Option<&'a [i64]>
    ensures { option_map (λ input. input.now) result ≡ spec.wrong_of found.now }
{
    match found {
        Settled::Explored(explored) => first_wrong(&explored.findings),
        _ => None,
    }
}

// Writes an input into a file.
fn write_input<S: Sources>(
    alloc: Global,
    sources: &mut S,
    name: &str,
    input: &[i64],
) -> Result<(), WriteRefused>
    ensures written { OnOk result (S.Sources.holds sources.new name.now (Some (texts.input_text input.now))) }
{
    match input_text(alloc, input) {
        Ok(text) => sources.write(alloc, name, &text),
        Err(_) => Err(WriteRefused::OutOfMemory),
    }
}

// Writes an input, and says so.
fn say_input<T: Voice, S: Sources, E: Out>(
    alloc: Global,
    voice: &T,
    call: &[String],
    name: &str,
    input: &[i64],
    status: Status,
    sources: &mut S,
    err: &mut E,
) -> Status
    ensures { left.LeavesWitness (T.refuses voice.now (map string_bytes call.now)) (T.wrote voice.now) (S.Sources.holds sources.new)
        (Some name.now) (Some input.now) status (E.Out.state err.old) (E.Out.state err.new) result }
{
    match write_input(alloc, sources, name, input) {
        Ok(()) => {
            voice.say_written(name, err);
            status
        }
        Err(why) => {
            voice.refuse(alloc, call, &halted_write(name, why), err);
            Status::Refused
        }
    }
}

// Writes the first input on which something goes wrong, if there is one.
fn say_wrong<T: Voice, S: Sources, E: Out>(
    alloc: Global,
    voice: &T,
    call: &[String],
    name: &str,
    found: &Settled<'_>,
    status: Status,
    sources: &mut S,
    err: &mut E,
) -> Status
    ensures { left.LeavesWitness (T.refuses voice.now (map string_bytes call.now)) (T.wrote voice.now) (S.Sources.holds sources.new)
        (Some name.now) (spec.wrong_of found.now) status (E.Out.state err.old) (E.Out.state err.new) result }
{
    match wrong_of(found) {
        Some(input) => say_input(alloc, voice, call, name, input, status, sources, err),
        None => status,
    }
}

/// Writes the first input on which something goes wrong into the file that is named for it, if one is and there is such an input, and says
/// so; or why it isn't written (P2), or that memory was refused (E16). The words are those of the call. The exit status is the one before,
/// or 2 where something was refused.
pub fn say_witness<T: Voice, S: Sources, E: Out>(
    alloc: Global,
    voice: &T,
    call: &[String],
    name: Option<&str>,
    found: &Settled<'_>,
    status: Status,
    sources: &mut S,
    err: &mut E,
) -> Status
    // Where a file is named and an input is told with what goes wrong, just that input's text is written there, or why
    // not is said; else nothing is.
    ensures { left.LeavesWitness (T.refuses voice.now (map string_bytes call.now)) (T.wrote voice.now) (S.Sources.holds sources.new)
        (option_map (λ n. n.now) name.entry) (spec.wrong_of found.now) status (E.Out.state err.old) (E.Out.state err.new) result }
{
    match name {
        Some(name) => say_wrong(alloc, voice, call, name, found, status, sources, err),
        None => status,
    }
}
