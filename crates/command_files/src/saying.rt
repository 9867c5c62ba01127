//! Texts are laid out, written and told.

ghost use Rattle.std.specs.Prelude.{◌≡◌, ◌++◌, map, OnErr};
ghost use Rattle.std.specs.String.{string_bytes};
ghost use Rattle.text_out.specs.Out.{StopsIn, with_bytes};
ghost use Rattle.program_texts.specs.declared.from_text.Refusal.TheVariants.{OutOfMemory};
ghost use Rattle.command_facts.specs.Written.{Wrote};
ghost use Rattle.command_files.specs.Left as spec;

use crate::arranging::ArrangedFile;
use crate::gathering::{Gathered, gather};
use command_facts::{Voice, halted_write};
use command_requests::ArrangeWords;
use diagnoses::Halted;
use program_texts::{Refusal, Status, Stop, finish};
use std::alloc::Global;
use system_files::Sources;
use text_out::Out;

// Writes a file.
fn write_one<T: Voice, S: Sources, E: Out>(
    alloc: Global,
    voice: &T,
    call: &[String],
    file: &ArrangedFile<'_>,
    status: Status,
    sources: &mut S,
    err: &mut E,
) -> Status
    ensures { spec.WritesOne (T.refuses voice.now (map string_bytes call.now)) file.now status (E.Out.state err.old)
        (E.Out.state err.new) result }
{
    match sources.write(alloc, file.name, &file.new) {
        Ok(()) => status,
        Err(why) => {
            voice.refuse(alloc, call, &halted_write(file.name, why), err);
            Status::Refused
        }
    }
}

// Writes files, one after the other.
fn write_files<T: Voice, S: Sources, E: Out>(
    alloc: Global,
    voice: &T,
    call: &[String],
    files: &[ArrangedFile<'_>],
    status: Status,
    sources: &mut S,
    err: &mut E,
) -> Status
    ensures { spec.Writes (T.refuses voice.now (map string_bytes call.now)) status (E.Out.state err.old) files.now
        (E.Out.state err.new) result }
{
    let mut ends = status;
    for file in files {
        ends = write_one(alloc, voice, call, file, ends, sources, err);
    }
    ends
}

// Writes a text.
fn tell<'a, O: Out>(out: &mut O, text: &[u8], status: Status) -> Result<Status, Stop<'a>>
    ensures written { Wrote status text.now (O.Out.state out.old) (O.Out.state out.new) result }
{
    out.write_all(text)?;
    finish(out, status)
}

// Writes files, and then tells what is told of all.
fn say_found<T: Voice, S: Sources, O: Out, E: Out>(
    alloc: Global,
    voice: &T,
    call: &[String],
    found: &Gathered<'_>,
    sources: &mut S,
    out: &mut O,
    err: &mut E,
) -> Status
    ensures { spec.LeavesFound (T.refuses voice.now (map string_bytes call.now)) (spec.found_is found.now) (O.Out.state out.old)
        (O.Out.state out.new) (E.Out.state err.old) (E.Out.state err.new) result }
{
    let ends = write_files(
        alloc,
        voice,
        call,
        &found.written,
        found.status,
        sources,
        err,
    );
    match tell(out, &found.told, ends) {
        Ok(status) => status,
        Err(stop) => {
            voice.refuse(alloc, call, &Halted::from(stop), err);
            Status::Refused
        }
    }
}

/// Lays the texts of files out, and writes them, shows them, or names those that would change, as it is asked for. The exit status is 1
/// where some would change and that is asked for, and 2 where something is refused: of that it is said in the voice, and others go on.
///
/// The words are those of the call. A file is refused as `pramc check` refuses its text (P2, E1 to E5, E19), and where it can't be written
/// (P2). Standard output fails with E17, and E16 comes where memory was refused.
pub fn say_arranged<T: Voice, S: Sources, O: Out, E: Out>(
    alloc: Global,
    voice: &T,
    call: &[String],
    words: &ArrangeWords<'_>,
    sources: &mut S,
    out: &mut O,
    err: &mut E,
) -> Status
    // Of each file its layout is found or it is refused, which is said; then what changes is written, and standard
    // output has what is told.
    ensures { spec.LeavesArranged (T.refuses voice.now (map string_bytes call.now)) (S.Sources.holds sources.old) words.now
        (O.Out.state out.old) (O.Out.state out.new) (E.Out.state err.old) (E.Out.state err.new) result }
{
    match gather(alloc, voice, call, words.form, &words.files, sources, err) {
        Ok(found) => say_found(alloc, voice, call, &found, sources, out, err),
        Err(_) => {
            let stop = Stop::Refused(Refusal::OutOfMemory);
            voice.refuse(alloc, call, &Halted::from(stop), err);
            Status::Refused
        }
    }
}
