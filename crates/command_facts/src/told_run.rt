//! Runs that were told as they went.

ghost use Rattle.std.specs.Prelude.{◌≡◌};
ghost use Rattle.command_facts.specs.Found.{cut_at, limit_at, until_of, with_outcome};

use crate::found::{FoundRun, FoundSteps, Limit};
use write_rules::Outcome;

// Behind so many statements a run with this limit ends.
fn limited(limit: Limit, bound: u32) -> Limit
    ensures { result ≡ limit_at limit bound }
{
    let seconds = if bound < limit.bound {
        limit.seconds
    } else {
        None
    };
    Limit { bound, seconds }
}

impl<'a> FoundSteps<'a> {
    /// How many milliseconds the call may be going until the run ends.
    pub fn until(&self) -> Option<u64>
        // It is a thousand times the seconds that the run has.
        ensures time { result ≡ until_of self.now.limit }
    {
        match self.limit.seconds {
            Some(seconds) => Some(u64::from(seconds) * 1000),
            None => None,
        }
    }

    /// Behind so many statements the run ends, by its seconds where it would have had more.
    pub fn limit_at(&self, bound: u32) -> Limit
        // It is so many statements, and the seconds where it would have had more.
        ensures limit { result ≡ limit_at self.now.limit bound }
    {
        limited(self.limit, bound)
    }

    /// The run, where it ends behind so many statements.
    pub fn cut_at(self, bound: u32) -> FoundSteps<'a>
        // It ends there, by its seconds where it would have had more statements.
        ensures cut { result ≡ cut_at self.entry bound }
    {
        FoundSteps {
            loaded: self.loaded,
            input: self.input,
            limit: limited(self.limit, bound),
            words: self.words,
        }
    }

    /// The run, once it has come to this.
    pub fn with_outcome(self, outcome: Outcome) -> FoundRun<'a>
        // It is the run that was told, with this outcome.
        ensures run { result ≡ with_outcome self.entry outcome }
    {
        FoundRun {
            loaded: self.loaded,
            input: self.input,
            limit: self.limit,
            outcome,
        }
    }
}
