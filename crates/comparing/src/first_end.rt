//! The first end among runs.

ghost use Rattle.std.specs.Prelude.{◌≡◌, Some, None};
ghost use Rattle.std.specs.Bool.{Decides};
ghost use Rattle.write_rules.specs.Verdict.{Ended, verdict_of};
ghost use Rattle.comparing.specs.RulesFound.{IsFound};
ghost use Rattle.comparing.specs.FirstEnd.{or_end};

use crate::finding::Finding;
use std::marker::Model;
use write_rules::Outcome;

/// Output and memory of a run that ended.
#[derive(Drop)]
struct End {
    output: Vec<i64>,
    memory: Vec<i64>,
}

// Whether two lists of values are one.
fn same_values(a: &[i64], b: &[i64]) -> bool
    ensures { Decides result (a.now ≡ b.now) }
{
    a == b
}

impl End {
    // What is found of another end.
    fn beside(&self, output: &[i64], memory: &[i64]) -> Finding
        ensures { IsFound (Some (self.now.output.items, self.now.memory.items)) (Ended output.now memory.now) result }
    {
        if same_values(&self.output, output) && same_values(&self.memory, memory) {
            Finding::Same
        } else {
            Finding::Other
        }
    }
}

/// The end of the first run that ended, once one has.
#[derive(Drop)]
pub(crate) struct FirstEnd {
    end: Option<End>,
}

impl Model for FirstEnd {
    ghost use Rattle.comparing.specs.FirstEnd.{end_of};
    ghost use Rattle.std.specs.Prelude.{Option, List, ℤ};

    ghost Value = { Option (List ℤ × List ℤ) };

    ghost view = { λ f. end_of f.end };
}

impl FirstEnd {
    /// No run has ended.
    pub(crate) fn none() -> FirstEnd
        ensures { result ≡ None }
    {
        FirstEnd { end: None }
    }

    // What is found of a run that ended.
    fn judge_end(&mut self, output: Vec<i64>, memory: Vec<i64>) -> Finding
        ensures first { self.new ≡ or_end self.old (Ended output.items memory.items) }
        ensures found { IsFound self.new (Ended output.items memory.items) result }
    {
        match &self.end {
            Some(end) => end.beside(&output, &memory),
            None => {
                self.end = Some(End { output, memory });
                Finding::Same
            }
        }
    }

    /// What is found of the next run.
    pub(crate) fn judge(&mut self, outcome: Outcome) -> Finding
        ensures first { self.new ≡ or_end self.old (verdict_of outcome) }
        ensures found { IsFound self.new (verdict_of outcome) result }
    {
        match outcome {
            Outcome::Ended { output, memory } => self.judge_end(output, memory),
            Outcome::Faulted { fault, output: _ } => Finding::Faulted(fault),
            Outcome::GoesOn { output: _ } => Finding::GoesOn,
        }
    }
}
