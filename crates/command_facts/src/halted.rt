//! Why a run is not made, and what is known besides.

ghost use Rattle.std.specs.Prelude.{◌≡◌, length};
ghost use Rattle.program_texts.specs.declared.stop.Stop.TheVariants.{Refused};
ghost use Rattle.command_facts.specs.Refused as spec;

use diagnoses::{About, Halted};
use program_texts::{Refusal, Stop};

fn about_run<'a>(refusal: Refusal, values: usize, cells: u32) -> About<'a>
    ensures { spec.IsToldWith refusal values cells result }
{
    match refusal {
        Refusal::InputTooLong => About::Values { values, cells },
        Refusal::Text(_) => About::Nothing,
        Refusal::Program(_) => About::Nothing,
        Refusal::BadMap => About::Nothing,
        Refusal::BadWorkers => About::Nothing,
        Refusal::OutOfMemory => About::Nothing,
        Refusal::OutOfReserve => About::Nothing,
    }
}

/// A run on this input that is refused, with the numbers of the input's values and of the cells where it is for these.
pub fn halted_run<'a>(refusal: Refusal, input: &[i64], cells: u32) -> Halted<'a>
    // The call stops for just this refusal.
    ensures stop { result.stop ≡ Refused refusal }
    // An input with too many values is told with their number and that of the cells, and nothing is told of another.
    ensures about { spec.IsToldWith refusal (length input.now) cells result.about }
{
    Halted {
        stop: Stop::Refused(refusal),
        about: about_run(refusal, input.len(), cells),
    }
}
