//! The numbers of an entry: each is a word of 64 bits.

ghost use Rattle.std.specs.Prelude.{◌≡◌, All};
ghost use Rattle.pages.specs.Counted.{HasWords, IsCounted, IsCountedCause, IsWord};

use journal::{Act, Cause, Change, Entry, Reading};

fn position(reading: &Reading) -> usize
    ensures value { result ≡ reading.now.position }
    ensures word { IsWord reading.now.position }
{
    reading.position
}

// Those of some reads.
fn see_positions(readings: &[Reading])
    ensures { All (λ r. IsWord r.position) readings.now }
{
    for reading in readings {
        position(reading);
    }
}

// Those of all processors.
fn see_acts(acts: &[Act])
    ensures { All HasWords acts.now }
{
    for act in acts {
        see_positions(&act.readings);
    }
}

fn variable(change: &Change) -> usize
    ensures value { result ≡ change.now.cell }
    ensures word { IsWord change.now.cell }
{
    change.cell
}

// Those of the variables that changed.
fn see_variables(changes: &[Change])
    ensures { All (λ d. IsWord d.cell) changes.now }
{
    for change in changes {
        variable(change);
    }
}

// That of a cause.
fn see_cause(cause: &Option<Cause>)
    ensures { IsCountedCause cause.now }
{
    if let Some(Cause::Wide { procs, .. }) = cause {
        let _procs = *procs;
    }
}

/// Sees each number of an entry: so it is known that a reader of JSON takes them all, also where its line isn't made.
pub(crate) fn see_numbers(entry: &Entry)
    ensures { IsCounted entry.now }
{
    match entry {
        Entry::Ran {
            location,
            acts,
            variables,
            ..
        } => {
            let _line = location.line;
            let _many = acts.len();
            see_acts(acts);
            see_variables(variables);
        }
        Entry::Faulted {
            fault,
            cause,
            acts,
            ..
        } => {
            let _line = fault.line;
            see_cause(cause);
            see_acts(acts);
        }
    }
}
