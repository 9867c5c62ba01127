//! How the program answers a request.

ghost use Rattle.std.specs.Prelude.{◌≡◌, Ok, map};
ghost use Rattle.std.specs.Option.{option_map};
ghost use Rattle.std.specs.String.{string_bytes};
ghost use Rattle.pramc.specs.Calls as calls;
ghost use Rattle.pramc.specs.Calls.{IsFoundFirst};
ghost use Rattle.pramc.specs.Left.{Leaves, LeavesTold};

use crate::finding::find;
use command_facts::{Found, Settled, Voice};
use command_files::{say_arranged, say_witness};
use command_requests::Request;
use diagnoses::Halted;
use observing::Watch;
use program_texts::{Status, Stop};
use std::alloc::Global;
use std::sync::Wait;
use std::thread::Threads;
use system_files::Sources;
use text_out::Out;
use workers::Gate;

// The file into which the first input is to be written on which something goes wrong, if the call names one.
fn witness_of<'a>(request: &Request<'a>) -> Option<&'a str>
    ensures { option_map (λ name. name.now) result ≡ calls.witness_of request.now }
{
    match request {
        Request::Exploration { witness, .. } => *witness,
        _ => None,
    }
}

// What was found and is known whole is said, and then such an input is written into that file.
fn say_whole<T: Voice, S: Sources, V: Watch, O: Out, E: Out>(
    alloc: Global,
    voice: &T,
    words: &[String],
    settled: &Settled<'_>,
    witness: Option<&str>,
    sources: &mut S,
    watch: &mut V,
    out: &mut O,
    err: &mut E,
) -> Status
    ensures left { LeavesTold (T.leaves voice.now) (T.refuses voice.now) (T.wrote voice.now) (S.Sources.holds sources.new)
        (map string_bytes words.now) (option_map (λ name. name.now) witness.entry) (Found.Settled settled.now) (O.Out.state out.old)
        (O.Out.state out.new) (E.Out.state err.old) (E.Out.state err.new) result }
{
    let told = voice.say_settled(alloc, words, settled, watch, out, err);
    say_witness(alloc, voice, words, witness, settled, told, sources, err)
}

// What was found is said, and of what is known whole such an input is written into that file.
fn say_found<T: Voice, S: Sources, V: Watch, O: Out, E: Out>(
    alloc: Global,
    voice: &T,
    words: &[String],
    found: Found<'_>,
    witness: Option<&str>,
    sources: &mut S,
    watch: &mut V,
    out: &mut O,
    err: &mut E,
) -> Status
    ensures left { LeavesTold (T.leaves voice.now) (T.refuses voice.now) (T.wrote voice.now) (S.Sources.holds sources.new)
        (map string_bytes words.now) (option_map (λ name. name.now) witness.entry) found.entry (O.Out.state out.old) (O.Out.state out.new)
        (E.Out.state err.old) (E.Out.state err.new) result }
{
    match found {
        Found::Settled(settled) => say_whole(
            alloc, voice, words, &settled, witness, sources, watch, out, err,
        ),
        Found::Stepped(steps) => voice.say_steps(alloc, words, steps, watch, out, err),
    }
}

// A request of which all is found before anything is told.
fn answer_found<
    R: Threads + Wait + Sync,
    T: Voice,
    S: Sources,
    V: Watch + Gate + Sync,
    O: Out,
    E: Out,
>(
    rt: &R,
    alloc: Global,
    voice: &T,
    request: Request<'_>,
    words: &[String],
    sources: &mut S,
    watch: &mut V,
    out: &mut O,
    err: &mut E,
) -> Status
    requires first { IsFoundFirst request }
    ensures left { Leaves (T.leaves voice.now) (T.refuses voice.now) (T.wrote voice.now) (S.Sources.holds sources.old)
        (S.Sources.holds sources.new) (map string_bytes words.now) (Ok request.entry) (O.Out.state out.old) (O.Out.state out.new)
        (E.Out.state err.old) (E.Out.state err.new) result }
{
    let witness = witness_of(&request);
    match find(rt, alloc, request, sources, watch) {
        Ok(found) => say_found(
            alloc, voice, words, found, witness, sources, watch, out, err,
        ),
        Err(halted) => {
            voice.refuse(alloc, words, &halted, err);
            Status::Refused
        }
    }
}

// A request that was read.
fn answer_request<
    R: Threads + Wait + Sync,
    T: Voice,
    S: Sources,
    V: Watch + Gate + Sync,
    O: Out,
    E: Out,
>(
    rt: &R,
    alloc: Global,
    voice: &T,
    request: Request<'_>,
    words: &[String],
    sources: &mut S,
    watch: &mut V,
    out: &mut O,
    err: &mut E,
) -> Status
    ensures left { Leaves (T.leaves voice.now) (T.refuses voice.now) (T.wrote voice.now) (S.Sources.holds sources.old)
        (S.Sources.holds sources.new) (map string_bytes words.now) (Ok request.entry) (O.Out.state out.old) (O.Out.state out.new)
        (E.Out.state err.old) (E.Out.state err.new) result }
{
    match request {
        Request::Arrange(arrange) => {
            say_arranged(alloc, voice, words, &arrange, sources, out, err)
        }
        _ => answer_found(rt, alloc, voice, request, words, sources, watch, out, err),
    }
}

/// Answers the request of a call of these words by a voice, or says why they are none, and answers the exit status.
///
/// Standard output has what was found, or a beginning of it where it failed (E17) or memory was refused on the way (E16), and nothing
/// where the call is refused: P1 for the words, and what [`find`] refuses. Behind that an input is written where a file is named for it, or it
/// is said why it isn't (P2, E16). The watch is told how far long runs are, but not of one whose statements are told on a terminal as it
/// goes.
pub(crate) fn answer<
    'a,
    R: Threads + Wait + Sync,
    T: Voice,
    S: Sources,
    V: Watch + Gate + Sync,
    O: Out,
    E: Out,
>(
    rt: &R,
    alloc: Global,
    voice: &T,
    asked: Result<Request<'a>, Stop<'a>>,
    words: &[String],
    sources: &mut S,
    watch: &mut V,
    out: &mut O,
    err: &mut E,
) -> Status
    ensures left { Leaves (T.leaves voice.now) (T.refuses voice.now) (T.wrote voice.now) (S.Sources.holds sources.old)
        (S.Sources.holds sources.new) (map string_bytes words.now) asked.entry (O.Out.state out.old) (O.Out.state out.new)
        (E.Out.state err.old) (E.Out.state err.new) result }
{
    match asked {
        Ok(request) => answer_request(rt, alloc, voice, request, words, sources, watch, out, err),
        Err(stop) => {
            voice.refuse(alloc, words, &Halted::from(stop), err);
            Status::Refused
        }
    }
}
