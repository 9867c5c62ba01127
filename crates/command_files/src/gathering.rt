//! What is found of files, one after the other.

ghost use Rattle.std.specs.Prelude.{◌≡◌, ℕ, List, Option, map, IfErr, IfOk, OnOk, OnErr};
ghost use Rattle.std.specs.String.{string_bytes};
ghost use Rattle.system_files.specs.Files.{IsSame};
ghost use Rattle.command_files.specs.Left as spec;

use crate::arranging::{ArrangedFile, arrange_file};
use crate::told::{add_told, is_written, status_behind};
use command_facts::Voice;
use command_requests::{ArrangeForm, ProgramFile};
use program_texts::Status;
use std::alloc::{AllocError, Global};
use system_files::Sources;
use text_out::Out;

/// What is told of files, which of them are to be written, and the exit status so far.
#[derive(Drop)]
pub struct Gathered<'a> {
    pub told: Vec<u8>,
    pub written: Vec<ArrangedFile<'a>>,
    pub status: Status,
}

// Takes in a file that is laid out.
fn take_in<'a>(
    alloc: Global,
    to: &mut Gathered<'a>,
    form: ArrangeForm,
    file: ArrangedFile<'a>,
) -> Result<(), AllocError>
    ensures { OnOk result (spec.found_is to.new ≡ spec.with_file form (spec.found_is to.old) file.entry) }
{
    add_told(alloc, &mut to.told, form, &file)?;
    to.status = status_behind(to.status, form, &file);
    if is_written(form, &file) {
        to.written.push(file)?;
    }
    Ok(())
}

// Takes in what is found of a file.
fn take<'a, T: Voice, S: Sources, E: Out>(
    alloc: Global,
    voice: &T,
    call: &[String],
    form: ArrangeForm,
    file: &ProgramFile<'a>,
    to: &mut Gathered<'a>,
    sources: &mut S,
    err: &mut E,
) -> Result<(), AllocError>
    ensures takes { OnOk result (spec.Takes (T.refuses voice.now (map string_bytes call.now)) (S.Sources.holds sources.old) form file.now
        (spec.found_is to.old) (E.Out.state err.old) (E.Out.state err.new) (spec.found_is to.new)) }
    ensures failed { OnErr result (E.Out.state err.new ≡ E.Out.state err.old) }
    ensures same { IsSame (S.Sources.holds sources.new) (S.Sources.holds sources.old) }
{
    match arrange_file(alloc, sources, file) {
        Ok(arranged) => {
            take_in(alloc, to, form, arranged)?;
            Ok(())
        }
        Err(halted) => {
            voice.refuse(alloc, call, &halted, err);
            to.status = Status::Refused;
            Ok(())
        }
    }
}

/// What is found of files, one after the other. Where memory is refused it is of those before.
pub(crate) fn gather<'a, T: Voice, S: Sources, E: Out>(
    alloc: Global,
    voice: &T,
    call: &[String],
    form: ArrangeForm,
    files: &[ProgramFile<'a>],
    sources: &mut S,
    err: &mut E,
) -> Result<Gathered<'a>, AllocError>
    ensures gathers { IfOk result (λ g. spec.Gathers (T.refuses voice.now (map string_bytes call.now)) (S.Sources.holds sources.old) form
        (E.Out.state err.old) files.now (E.Out.state err.new) (spec.found_is g)) }
    ensures failed { OnErr result (spec.GathersSome (T.refuses voice.now (map string_bytes call.now)) (S.Sources.holds sources.old) form
        (E.Out.state err.old) (E.Out.state err.new)) }
{
    let mut to = Gathered {
        told: Vec::new(alloc),
        written: Vec::new(alloc),
        status: Status::Done,
    };
    for file in files {
        take(alloc, voice, call, form, file, &mut to, sources, err)?;
    }
    Ok(to)
}
