//! What was found is told as JSON.

ghost use Rattle.std.specs.Prelude.{map};
ghost use Rattle.std.specs.String.{string_bytes};
ghost use Rattle.command_json.specs.Left.{IsRefusalSaid, IsUnsaid, LeavesFound};
ghost use Rattle.command_json.specs.Stepped.{IsToldBy};

use crate::reporting::{report, tell_found_in_time, tell_time};
use crate::stepping::write_stepped;
use crate::telling::write_found;
use command_facts::{Found, FoundSteps, Settled, Voice};
use diagnoses::Halted;
use journal::Ending;
use observing::Watch;
use program_texts::{Status, Stop};
use std::alloc::Global;
use system_files::Quiet;
use text_out::Out;

// A run of a program is told as it runs. The watch is told how far it is, but where its lines come on a terminal.
fn write_watched<'a, V: Watch, O: Out>(
    alloc: Global,
    on_terminal: bool,
    steps: &FoundSteps<'_>,
    watch: &mut V,
    out: &mut O,
) -> Result<Ending, Stop<'a>>
    ensures told { IsToldBy steps.now (O.Out.state out.old) (O.Out.state out.new) result }
{
    if on_terminal {
        return write_stepped(alloc, steps, &mut Quiet::new(watch), out);
    }
    let told = write_stepped(alloc, steps, watch, out);
    watch.close();
    told
}

// What is refused of it goes to the other stream.
fn tell_steps<V: Watch, O: Out, E: Out>(
    alloc: Global,
    words: &[String],
    on_terminal: bool,
    steps: &FoundSteps<'_>,
    watch: &mut V,
    out: &mut O,
    err: &mut E,
) -> Status
    ensures leaves { LeavesFound (map string_bytes words.now) (Found.Stepped steps.now) (O.Out.state out.old) (O.Out.state out.new)
        (E.Out.state err.old) (E.Out.state err.new) result }
{
    match write_watched(alloc, on_terminal, steps, watch, out) {
        Ok(ending) => {
            tell_time(err, &ending.outcome, &steps.limit_at(ending.bound));
            Status::of(&ending.outcome)
        }
        Err(stop) => {
            report(alloc, err, words, &Halted::from(stop));
            Status::Refused
        }
    }
}

// What was found is told.
fn tell<O: Out, E: Out>(
    alloc: Global,
    words: &[String],
    found: &Settled<'_>,
    out: &mut O,
    err: &mut E,
) -> Status
    ensures leaves { LeavesFound (map string_bytes words.now) (Found.Settled found.now) (O.Out.state out.old) (O.Out.state out.new)
        (E.Out.state err.old) (E.Out.state err.new) result }
{
    match write_found(alloc, found, out) {
        Ok(status) => {
            tell_found_in_time(err, found);
            status
        }
        Err(stop) => {
            report(alloc, err, words, &Halted::from(stop));
            Status::Refused
        }
    }
}

/// What a call finds, said as JSON.
///
/// `check`, `meaning`, `cost`, `rules`, `explore`, `always`, `run` and `exec` write one object; `compare` one for each input that is told
/// and one for all; `grade` one for each program and one for all; `steps` and `trace` an object a line, and on the last line how the run
/// came out. What is refused is one object on standard error, with what there is to say of it. `expand`, `plan`, `export`, `explain` and
/// the version are not told as JSON (P1).
#[derive(Clone, Copy, Debug)]
pub struct Json {
    /// Whether standard output is a terminal, where the watch isn't told of a run whose lines are written as it goes.
    pub on_terminal: bool,
}

impl Voice for Json {
    // Standard output has the lines of JSON whose facts tell what is found, or a beginning of them; standard error just
    // a refusal's line, or that time was over.
    ghost leaves = { λ json words found out out_new err err_new ends. LeavesFound words found out out_new err err_new ends };

    // Standard error has the line of JSON of the refusal, or that of E16 where memory for it was refused; or a beginning.
    ghost refuses = { λ json words why about err err_new. IsRefusalSaid words why about err err_new };

    // Standard error stays as it was.
    ghost wrote = { λ json name err err_new. IsUnsaid name err err_new };

    fn say_settled<V: Watch, O: Out, E: Out>(
        &self,
        alloc: Global,
        words: &[String],
        found: &Settled<'_>,
        _watch: &mut V,
        out: &mut O,
        err: &mut E,
    ) -> Status {
        tell(alloc, words, found, out, err)
    }

    fn say_steps<V: Watch, O: Out, E: Out>(
        &self,
        alloc: Global,
        words: &[String],
        steps: FoundSteps<'_>,
        watch: &mut V,
        out: &mut O,
        err: &mut E,
    ) -> Status {
        tell_steps(alloc, words, self.on_terminal, &steps, watch, out, err)
    }

    fn refuse<E: Out>(&self, alloc: Global, words: &[String], halted: &Halted<'_>, err: &mut E) {
        report(alloc, err, words, halted);
    }

    fn say_written<E: Out>(&self, _name: &str, _err: &mut E) {}
}
