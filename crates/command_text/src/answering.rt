//! What was found is told in words.

ghost use Rattle.std.specs.Prelude.{map};
ghost use Rattle.std.specs.String.{string_bytes};
ghost use Rattle.command_text.specs.Explained.{IsRefusalReported, IsWrittenSaid};
ghost use Rattle.command_text.specs.Left.{LeavesFound};
ghost use Rattle.command_text.specs.Stepped.{IsToldInTime};

use crate::explaining::{explain, explain_run, report, say_written};
use crate::stepping::write_stepped;
use crate::telling::write_found;
use crate::terminal::Terminal;
use command_facts::{Found, FoundRun, FoundSteps, Settled, Voice};
use diagnoses::Halted;
use observing::Watch;
use program_texts::{Status, Stop};
use std::alloc::Global;
use system_files::Quiet;
use text_out::Out;

// A run of a program is told as it runs. The watch is told how far it is, but where its lines come on a terminal.
fn write_watched<'a, 'b, V: Watch, O: Out>(
    alloc: Global,
    on: Terminal,
    steps: FoundSteps<'b>,
    watch: &mut V,
    out: &mut O,
) -> Result<FoundRun<'b>, Stop<'a>>
    ensures told { IsToldInTime on steps.entry (O.Out.state out.old) (O.Out.state out.new) result }
{
    if on.output {
        return write_stepped(alloc, on, steps, &mut Quiet::new(watch), out);
    }
    let told = write_stepped(alloc, on, steps, watch, out);
    watch.close();
    told
}

// What is said of it goes to the other stream.
fn tell_steps<V: Watch, O: Out, E: Out>(
    alloc: Global,
    words: &[String],
    on: Terminal,
    steps: FoundSteps<'_>,
    watch: &mut V,
    out: &mut O,
    err: &mut E,
) -> Status
    ensures leaves { LeavesFound on (map string_bytes words.now) (Found.Stepped steps.entry) (O.Out.state out.old) (O.Out.state out.new)
        (E.Out.state err.old) (E.Out.state err.new) result }
{
    match write_watched(alloc, on, steps, watch, out) {
        Ok(run) => {
            explain_run(alloc, watch, err, &run, on.errors);
            Status::of(&run.outcome)
        }
        Err(stop) => {
            report(alloc, err, words, &Halted::from(stop), on);
            Status::Refused
        }
    }
}

// What was found is told.
fn tell<V: Watch, O: Out, E: Out>(
    alloc: Global,
    words: &[String],
    on: Terminal,
    found: &Settled<'_>,
    watch: &mut V,
    out: &mut O,
    err: &mut E,
) -> Status
    ensures leaves { LeavesFound on (map string_bytes words.now) (Found.Settled found.now) (O.Out.state out.old) (O.Out.state out.new)
        (E.Out.state err.old) (E.Out.state err.new) result }
{
    match write_found(found, out) {
        Ok(status) => {
            explain(alloc, watch, err, found, on.errors);
            status
        }
        Err(stop) => {
            report(alloc, err, words, &Halted::from(stop), on);
            Status::Refused
        }
    }
}

impl Voice for Terminal {
    // Standard output has the one text that tells what is found, or a beginning of it; standard error just a refusal,
    // an explanation or that time was over.
    ghost leaves = { λ on words found out out_new err err_new ends. LeavesFound on words found out out_new err err_new ends };

    // Standard error has the line of the refusal and what explains it, or the lines of editors; or a beginning of that.
    ghost refuses = { λ on words why about err err_new. IsRefusalReported on words why about err err_new };

    // Standard error has the line that names the file, or a beginning of it.
    ghost wrote = { λ on name err err_new. IsWrittenSaid name err err_new };

    fn say_settled<V: Watch, O: Out, E: Out>(
        &self,
        alloc: Global,
        words: &[String],
        found: &Settled<'_>,
        watch: &mut V,
        out: &mut O,
        err: &mut E,
    ) -> Status {
        tell(alloc, words, *self, found, watch, out, err)
    }

    fn say_steps<V: Watch, O: Out, E: Out>(
        &self,
        alloc: Global,
        words: &[String],
        steps: FoundSteps<'_>,
        watch: &mut V,
        out: &mut O,
        err: &mut E,
    ) -> Status {
        tell_steps(alloc, words, *self, steps, watch, out, err)
    }

    fn refuse<E: Out>(&self, alloc: Global, words: &[String], halted: &Halted<'_>, err: &mut E) {
        report(alloc, err, words, halted, *self);
    }

    fn say_written<E: Out>(&self, name: &str, err: &mut E) {
        say_written(err, name);
    }
}
