//! The text of a file, laid out.

ghost use Rattle.std.specs.Prelude.{◌≡◌, IfOk, IfErr};
ghost use Rattle.system_files.specs.Files.{IsSame};
ghost use Rattle.command_facts.specs.Held.{StopsAtProgram};
ghost use Rattle.command_files.specs.Arranged as spec;

use command_facts::load_text;
use command_requests::ProgramFile;
use diagnoses::{About, Halted};
use laid_out_texts::lay_out;
use pram_parser::parse;
use program_texts::{Refusal, Stop};
use std::alloc::Global;
use system_files::Sources;

/// The text that a file holds, and how it is laid out.
#[derive(Drop)]
pub struct ArrangedFile<'a> {
    pub name: &'a str,
    pub old: Vec<u8>,
    pub new: Vec<u8>,
}

/// The text of a program's file, laid out. It is refused as [`load_text`] refuses it, and where it isn't of the grammar (E3 to E5).
pub fn arrange_file<'a, S: Sources>(
    alloc: Global,
    sources: &mut S,
    file: &ProgramFile<'a>,
) -> Result<ArrangedFile<'a>, Halted<'a>>
    // It is all that the file of that name holds, of the grammar with its sizes put in, and its layout.
    ensures arranged { IfOk result (spec.IsArranged (S.Sources.holds sources.old file.now.name.now) file.now) }
    // Without it the call stops at that file, or at its text.
    ensures refused { IfErr result (StopsAtProgram (S.Sources.holds sources.old file.now.name.now) file.now) }
    // All files hold what they held.
    ensures same { IsSame (S.Sources.holds sources.new) (S.Sources.holds sources.old) }
{
    let source = load_text(alloc, sources, file)?;
    if let Err(fault) = parse(alloc, source.text()) {
        return Err(Halted {
            stop: Stop::Refused(Refusal::from(fault)),
            about: About::Text(source),
        });
    }
    match lay_out(alloc, &source.bytes) {
        Ok(new) => Ok(ArrangedFile {
            name: file.name,
            old: source.bytes,
            new,
        }),
        Err(_) => Err(Halted::from(Stop::Refused(Refusal::OutOfMemory))),
    }
}
