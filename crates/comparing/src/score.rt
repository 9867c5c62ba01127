//! How the second of two programs does on some inputs.

ghost use Rattle.std.specs.Prelude.{◌≡◌, ◌+◌, ◌<◌, ◌≤◌, ◌^◌, []};
ghost use Rattle.comparing.specs.Scores as spec;

use crate::trial::Trial;

/// How the second of two programs does on the inputs that count: on how many nothing differs and it ends, on how many it faults, goes on,
/// or comes to the same but takes more than a limit; and the most time and work of its runs, also of those that don't end.
#[derive(Clone, Copy)]
pub struct Score {
    pub correct: u64,
    pub faulted: u64,
    pub going_on: u64,
    pub above: u64,
    pub most_time: u64,
    pub most_work: u64,
}

// One more, where that is so.
fn counted(count: u64, is: bool) -> u64
    requires { count + 1 < 2 ^ 64 }
    ensures counted { result ≡ spec.counted is count }
    ensures most { result ≤ count + 1 }
{
    if is { count + 1 } else { count }
}

impl Score {
    /// That on no input.
    pub(crate) fn new() -> Score
        ensures { result ≡ spec.score_of [] }
    {
        Score {
            correct: 0,
            faulted: 0,
            going_on: 0,
            above: 0,
            most_time: 0,
            most_work: 0,
        }
    }

    /// That with one input more.
    pub(crate) fn with(self, trial: &Trial) -> Score
        requires correct { self.correct + 1 < 2 ^ 64 }
        requires faulted { self.faulted + 1 < 2 ^ 64 }
        requires going_on { self.going_on + 1 < 2 ^ 64 }
        requires above { self.above + 1 < 2 ^ 64 }
        ensures scored { result ≡ spec.scored trial.now self }
        ensures few_correct { result.correct ≤ self.correct + 1 }
        ensures few_faulted { result.faulted ≤ self.faulted + 1 }
        ensures few_going_on { result.going_on ≤ self.going_on + 1 }
        ensures few_above { result.above ≤ self.above + 1 }
    {
        Score {
            correct: counted(self.correct, trial.is_correct()),
            faulted: counted(self.faulted, trial.is_faulted()),
            going_on: counted(self.going_on, trial.is_going_on()),
            above: counted(self.above, trial.is_above()),
            most_time: self.most_time.max(trial.time),
            most_work: self.most_work.max(trial.work),
        }
    }
}
