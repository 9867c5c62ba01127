//! Refusals with their offsets in the file.

ghost use Rattle.std.specs.Prelude.{◌≡◌, MatchOption};
ghost use Rattle.text_out.specs.Out.{Writes};
ghost use Rattle.program_texts.specs.declared.stop.Stop.TheVariants.{Refused};
ghost use Rattle.diagnoses.specs.Sources as sources;
ghost use Rattle.diagnoses.specs.RefusedLines as spec;

use crate::about::About;
use crate::source::Source;
use pram_check::{Breach, Spot};
use pram_trees::TextFault;
use program_texts::{Refusal, Stop, write_stop};
use text_out::{Out, WriteFault};

fn fault_as_it_stands(source: &Source<'_>, fault: TextFault) -> TextFault
    ensures { result ≡ sources.fault_as_it_stands source.now fault }
{
    match fault {
        TextFault::NotAscii(at) => TextFault::NotAscii(source.origin(at)),
        TextFault::TextTooLong => TextFault::TextTooLong,
        TextFault::BadToken(at) => TextFault::BadToken(source.origin(at)),
        TextFault::Syntax(at) => TextFault::Syntax(source.origin(at)),
        TextFault::TooDeep(at) => TextFault::TooDeep(source.origin(at)),
        TextFault::OutOfMemory => TextFault::OutOfMemory,
    }
}

/// A place of the text that is judged, by its offset in the file.
pub(crate) fn spot_as_it_stands(source: &Source<'_>, spot: Spot) -> Spot
    ensures { result ≡ sources.spot_as_it_stands source.now spot }
{
    match spot {
        Spot::Offset(at) => Spot::Offset(source.origin(at)),
        Spot::TextEnd => Spot::TextEnd,
    }
}

/// A refusal of the text that is judged, with its offset in the file.
pub(crate) fn as_it_stands(source: &Source<'_>, refusal: Refusal) -> Refusal
    ensures { result ≡ sources.as_it_stands source.now refusal }
{
    match refusal {
        Refusal::Text(fault) => Refusal::Text(fault_as_it_stands(source, fault)),
        Refusal::Program(breach) => Refusal::Program(Breach {
            spot: spot_as_it_stands(source, breach.spot),
            cause: breach.cause,
        }),
        Refusal::InputTooLong => Refusal::InputTooLong,
        Refusal::BadMap => Refusal::BadMap,
        Refusal::BadWorkers => Refusal::BadWorkers,
        Refusal::OutOfMemory => Refusal::OutOfMemory,
        Refusal::OutOfReserve => Refusal::OutOfReserve,
    }
}

fn refusal_about(refusal: Refusal, about: &About<'_>) -> Refusal
    ensures { result ≡ spec.refusal_about about.now refusal }
{
    match about {
        About::Text(source) => as_it_stands(source, refusal),
        About::Nothing => refusal,
        About::Line { .. } => refusal,
        About::Values { .. } => refusal,
        About::File(_) => refusal,
    }
}

/// The refusal for which a call stops, with its offset in the file of the text that it is about. `None`: the call stops for something else,
/// and there an offset stands as it is.
pub fn refusal_as_it_stands(stop: &Stop<'_>, about: &About<'_>) -> Option<Refusal>
    ensures { MatchOption result (spec.stop_as_it_stands about.now stop.now ≡ stop.now)
        (λ refusal. spec.stop_as_it_stands about.now stop.now ≡ Refused refusal) }
{
    match stop {
        Stop::Refused(refusal) => Some(refusal_about(*refusal, about)),
        Stop::Words(_) => None,
        Stop::Number(_) => None,
        Stop::Unreadable(_) => None,
        Stop::NotVerified(_, _) => None,
        Stop::BadListing(_) => None,
        Stop::WriteFailed => None,
        Stop::BadSize(_, _) => None,
    }
}

/// Writes the line that says why a call stops, as `write_stop`, with the offset in the file of the text that it is about. The error is that
/// the writer failed (E17).
pub fn write_refused_line<W: Out>(
    out: &mut W,
    stop: &Stop<'_>,
    about: &About<'_>,
) -> Result<(), WriteFault>
    // Exactly the refusal's line is written, with the offset in the file from which the byte came, or a beginning of it
    // and then a failure.
    ensures written { Writes (W.Out.state out.old) (W.Out.state out.new) (spec.stop_line stop.now about.now) result }
{
    match refusal_as_it_stands(stop, about) {
        Some(refusal) => write_stop(out, &Stop::Refused(refusal)),
        None => write_stop(out, stop),
    }
}
