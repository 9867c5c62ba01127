//! The first input on which something goes wrong.

ghost use Rattle.std.specs.Prelude.{◌≡◌};
ghost use Rattle.std.specs.Option.{option_map, option_or};
ghost use Rattle.scopes.specs.Found.{found_is, values_of};
ghost use Rattle.command_files.specs.Witness as spec;

use scopes::Findings;

// The first of two inputs that is there.
fn first_of<'a>(first: &'a Option<Vec<i64>>, second: &'a Option<Vec<i64>>) -> Option<&'a [i64]>
    ensures { option_map (λ input. input.now) result ≡ option_or (option_map values_of first.now) (option_map values_of second.now) }
{
    match first {
        Some(input) => Some(input.as_slice()),
        None => match second {
            Some(input) => Some(input.as_slice()),
            None => None,
        },
    }
}

/// The first input on which something goes wrong, in the order in which findings are told: of the faults the first one's; else that on which
/// the run goes on; else that on which it fails. None where nothing goes wrong.
pub fn first_wrong(findings: &Findings) -> Option<&[i64]>
    // It is the first of the inputs that are told with what goes wrong, and none where none is.
    ensures { option_map (λ input. input.now) result ≡ spec.first_wrong (found_is findings.now) }
{
    match findings.faults.as_slice() {
        [met, ..] => Some(met.input.as_slice()),
        [] => first_of(&findings.goes_on_at, &findings.fails_at),
    }
}
