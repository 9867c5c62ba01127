//! The program `pramc`, but for the system's files and streams.

ghost use Rattle.std.specs.Prelude.{◌≡◌, map};
ghost use Rattle.std.specs.String.{string_bytes};
ghost use Rattle.pramc.specs.Command as spec;

use crate::answering::answer;
use command_json::Json;
use command_requests::{Reader, asks_for_gnu, asks_for_json, asks_to_explain};
use command_text::Terminal;
use observing::Watch;
use program_texts::Status;
use std::alloc::Global;
use std::sync::Wait;
use std::thread::Threads;
use system_files::Sources;
use text_out::Out;
use workers::Gate;

// The streams of the call, of which standard error has explanations where it is a terminal or a word asks for them, and the lines of
// editors where words ask for these.
fn explaining(terminal: Terminal, words: &[String]) -> Terminal
    ensures { result ≡ spec.explaining terminal (map string_bytes words.now) }
{
    Terminal {
        errors: terminal.errors || asks_to_explain(words),
        gnu: asks_for_gnu(words),
        output: terminal.output,
        colours: terminal.colours,
    }
}

/// Does what the words behind the program's name ask for, in words or as JSON, and answers the exit status.
///
/// What the words ask for is said by their reader, and whether in JSON by
/// [`asks_for_json`](command_requests::asks_for_json); what is done then by [`answer`], in words or by
/// [`Json`]. In words a refusal and a fault are explained where standard error is a terminal or one
/// of the words is `--explain`; and a refusal is told in the lines that editors read where
/// [`asks_for_gnu`](command_requests::asks_for_gnu) says so. While many runs are made, or a
/// long one, the watch is told how far they are, but where a run is told on a terminal as it goes.
pub fn command<
    R: Threads + Wait + Sync,
    W: Reader,
    S: Sources,
    V: Watch + Gate + Sync,
    O: Out,
    E: Out,
>(
    rt: &R,
    alloc: Global,
    reader: &W,
    words: &[String],
    terminal: Terminal,
    sources: &mut S,
    watch: &mut V,
    out: &mut O,
    err: &mut E,
) -> Status
    // The call leaves what its request does, in JSON exactly where the words ask for that, and explained exactly where
    // they do or standard error is a terminal.
    ensures leaves { spec.LeavesAs (S.Sources.holds sources.old) (S.Sources.holds sources.new) terminal (map string_bytes words.now)
        (O.Out.state out.old) (O.Out.state out.new) (E.Out.state err.old) (E.Out.state err.new) result }
{
    let asked = reader.read(alloc, words);
    if asks_for_json(words) {
        let json = Json {
            on_terminal: terminal.output,
        };
        answer(rt, alloc, &json, asked, words, sources, watch, out, err)
    } else {
        let on = explaining(terminal, words);
        answer(rt, alloc, &on, asked, words, sources, watch, out, err)
    }
}
