//! What is written to standard error.

ghost use Rattle.std.specs.Prelude.{◌∷◌, [], IfOk, map};
ghost use Rattle.std.specs.String.{string_bytes};
ghost use Rattle.text_out.specs.Out.{Writes};
ghost use Rattle.json_texts.specs.Lines.{IsJson};
ghost use Rattle.json_texts.specs.MessageFacts.{refusal_facts};
ghost use Rattle.help.specs.Messages.{message_is};
ghost use Rattle.diagnoses.specs.RefusedLines.{stop_as_it_stands};
ghost use Rattle.diagnoses.specs.Stops.{bytes_in as bytes_of, name_in as name_of};
ghost use Rattle.command_facts.specs.Written.{IsReported};
ghost use Rattle.command_json.specs.Left as spec;

use command_facts::{Limit, Settled, message_for};
use diagnoses::{Halted, bytes_in, name_in, refusal_as_it_stands};
use help::Message;
use itoa::Buffer;
use json_texts::{json_refusal, out_of_memory_line};
use program_texts::Stop;
use std::alloc::{AllocError, Global};
use text_out::{Out, WriteFault};
use write_rules::Outcome;

// The line of a refusal with this message, with its offset in the file.
fn placed_line(alloc: Global, halted: &Halted<'_>, message: &Message) -> Result<String, AllocError>
    ensures told { IfOk result (λ line. IsJson (refusal_facts (name_of halted.now.about) (bytes_of halted.now.about)
        (stop_as_it_stands halted.now.about halted.now.stop) (message_is message.now) ∷ []) (string_bytes line)) }
{
    let (name, bytes) = (name_in(&halted.about), bytes_in(&halted.about));
    match refusal_as_it_stands(&halted.stop, &halted.about) {
        Some(refusal) => json_refusal(alloc, name, bytes, &Stop::Refused(refusal), message),
        None => json_refusal(alloc, name, bytes, &halted.stop, message),
    }
}

// The line of a refusal, of a call of these words.
fn refusal_line(alloc: Global, words: &[String], halted: &Halted<'_>) -> Result<String, AllocError>
    ensures told { IfOk result
        (λ line. spec.IsRefusalLine (map string_bytes words.now) halted.now.stop halted.now.about (string_bytes line)) }
{
    let message = message_for(alloc, words, halted)?;
    placed_line(alloc, halted, &message)
}

fn write_line<E: Out>(err: &mut E, line: &[u8])
    ensures written { IsReported (E.Out.state err.old) (E.Out.state err.new) line.now }
{
    if err.write_all(line).is_ok() {
        let _ = err.flush();
    }
}

/// Writes what is refused, of a call of these words, to standard error, or that memory for this was refused. That it fails changes no
/// status.
pub(crate) fn report<E: Out>(alloc: Global, err: &mut E, words: &[String], halted: &Halted<'_>)
    ensures told { spec.IsRefusalSaid (map string_bytes words.now) halted.now.stop halted.now.about
        (E.Out.state err.old) (E.Out.state err.new) }
{
    match refusal_line(alloc, words, halted) {
        Ok(line) => write_line(err, line.as_bytes()),
        Err(_) => write_line(err, out_of_memory_line()),
    }
}

fn write_time<E: Out>(err: &mut E, seconds: u32, bound: u32) -> Result<(), WriteFault>
    ensures written { Writes (E.Out.state err.old) (E.Out.state err.new) (spec.time_line seconds bound) result }
{
    err.write_parts(&[
        b"{\"bound\":",
        Buffer::new().format(bound).as_bytes(),
        b",\"seconds\":",
        Buffer::new().format(seconds).as_bytes(),
        b"}\n",
    ])
}

fn say_time<E: Out>(err: &mut E, seconds: u32, bound: u32)
    ensures written { IsReported (E.Out.state err.old) (E.Out.state err.new) (spec.time_line seconds bound) }
{
    if write_time(err, seconds, bound).is_ok() {
        let _ = err.flush();
    }
}

/// Writes to standard error, where time was over for a run that goes on, how many seconds it had and behind how many statements that was.
pub(crate) fn tell_time<E: Out>(err: &mut E, outcome: &Outcome, limit: &Limit)
    ensures told { spec.IsTimeTold outcome.now limit.now (E.Out.state err.old) (E.Out.state err.new) }
{
    match outcome {
        Outcome::Ended { .. } | Outcome::Faulted { .. } => {}
        Outcome::GoesOn { .. } => {
            if let Some(seconds) = limit.seconds {
                say_time(err, seconds, limit.bound)
            }
        }
    }
}

/// The same of what was found.
pub(crate) fn tell_found_in_time<E: Out>(err: &mut E, found: &Settled<'_>)
    ensures told { spec.IsFoundInTime found.now (E.Out.state err.old) (E.Out.state err.new) }
{
    match found {
        Settled::Run(run, _) => tell_time(err, &run.outcome, &run.limit),
        Settled::Costed(run, _, _) => tell_time(err, &run.outcome, &run.limit),
        Settled::Traced(run, _, _) => tell_time(err, &run.outcome, &run.limit),
        _ => {}
    }
}
