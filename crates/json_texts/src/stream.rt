//! Who writes the entries of a run as they come.

ghost use Rattle.std.proofs.Common.{◌∙◌};
ghost use Rattle.std.specs.Prelude.{◌≡◌, ◌<◌, ◌+◌, ◌^◌, ◌-◌, ◌∷◌, [], List, IfOk, OnOk, OnErr, refl, string_bytes, true, ℕ};
ghost use Rattle.json_texts.specs.Lines.{IsJson};
ghost use Rattle.json_texts.specs.StepFacts.{step_facts};
ghost use Rattle.text_out.specs.Printing.{Prints, printing};
ghost use Rattle.journal.specs.Entries.{entry_is};
ghost use Rattle.step_text.specs.Passing.{is_told, one_more};
ghost use Rattle.json_texts.specs.StreamLaws.{streams_nothing, streams_on};
ghost use Rattle.json_texts.specs.Streams.{Breaks, Streams};

use crate::asked::Asked;
use crate::json_step;
use journal::{Entry, Teller};
use std::alloc::{AllocError, Global};
use text_out::{Out, OutFailed};

/// Writes the lines that are asked for of a run's entries as these come, and keeps none: how many were counted so far, and whether the
/// writer has failed, behind which nothing more is written.
#[derive(Drop)]
pub(crate) struct Stream<'a, W: Out> {
    pub(crate) alloc: Global,
    pub(crate) asked: Asked<'a>,
    pub(crate) out: &'a mut W,
    pub(crate) count: usize,
    pub(crate) failed: bool,
}

impl<'a, W: Out> Stream<'a, W> {
    // Whether the next entry is one of those that are asked for.
    fn is_asked(&self) -> bool
        ensures value { result ≡ is_told self.now.asked.first self.now.asked.last self.now.count }
        ensures few { result ≡ true → self.now.count < 2 ^ 64 - 1 }
    {
        self.count < self.asked.last && self.asked.first <= self.count + 1
    }

    // One entry more is behind.
    fn count_on(&mut self)
        ensures asked { self.new.asked ≡ self.old.asked }
        ensures same_out { self.new.out.ghost_name ≡ self.old.out.ghost_name }
        ensures out { self.new.out.now ≡ self.old.out.now }
        ensures failed { self.new.failed ≡ self.old.failed }
        ensures counted { self.new.count ≡ one_more self.old.asked.last self.old.count }
    {
        if self.count < self.asked.last {
            self.count += 1;
        }
    }

    // The line of the next entry, in memory that is given back when it is written.
    fn line(&self, entry: &Entry) -> Result<String, AllocError>
        requires few { self.now.count < 2 ^ 64 - 1 }
        ensures json { IfOk result (λ line. IsJson
            (step_facts self.now.asked.layout.now self.now.asked.tree.now self.now.asked.source.now (self.now.count + 1)
            (entry_is entry.now) ∷ []) (string_bytes line)) }
    {
        let asked = &self.asked;
        json_step(
            self.alloc,
            asked.layout,
            asked.tree,
            asked.source,
            self.count + 1,
            entry,
        )
    }

    // That line is written, where the writer has not failed.
    fn write(&mut self, line: &String)
        ensures asked { self.new.asked ≡ self.old.asked }
        ensures same_out { self.new.out.ghost_name ≡ self.old.out.ghost_name }
        ensures count { self.new.count ≡ self.old.count }
        ensures prints { Prints (printing (W.Out.state self.old.out.now) self.old.failed)
            (printing (W.Out.state self.new.out.now) self.new.failed) (string_bytes line.now) }
    {
        if !self.failed {
            let told = self.out.write_all(line.as_bytes());
            self.failed = told.is_err();
        }
    }
}

impl<'a, W: Out> Teller for Stream<'a, W> {
    ghost tells = { λ a es b. (b.asked ≡ a.asked) × (b.out.ghost_name ≡ a.out.ghost_name)
        × Streams a.asked a.count b.count (printing (W.Out.state a.out.now) a.failed) (printing (W.Out.state b.out.now) b.failed) es };

    ghost breaks_off = { λ a e b. (b.out.ghost_name ≡ a.out.ghost_name)
        × Breaks a.asked a.count (printing (W.Out.state a.out.now) a.failed) (printing (W.Out.state b.out.now) b.failed) e };

    #[tactic(auto, using(crate::proofs::Lines::passes_by, crate::specs::StreamLaws::streams_nothing))]
    fn passes(&mut self) -> bool {
        if self.is_asked() {
            return false;
        }
        self.count_on();
        true
    }

    #[tactic(auto, using(crate::proofs::Lines::passes_by, crate::proofs::Lines::unmade, crate::proofs::Lines::broke_in, crate::proofs::Lines::wrote_one))]
    fn tell(&mut self, entry: Entry) -> Result<(), AllocError> {
        if !self.is_asked() {
            self.count_on();
            return Ok(());
        }
        let line = self.line(&entry)?;
        self.write(&line);
        if self.failed {
            return Err(AllocError);
        }
        self.count_on();
        Ok(())
    }

    fn show(&mut self) -> Result<(), AllocError> {
        if self.failed {
            return Err(AllocError);
        }
        match self.out.flush() {
            Ok(()) => Ok(()),
            Err(OutFailed) => {
                self.failed = true;
                Err(AllocError)
            }
        }
    }

    ghost tells_nothing = { λ t. (refl, refl, streams_nothing t.asked t.count (printing (W.Out.state t.out.now) t.failed)) };

    ghost tells_on = { λ a b c xs ys h g. (
      g.0 ∙ h.0,
      g.1 ∙ h.1,
      streams_on a.asked b.asked a.count b.count c.count
          (printing (W.Out.state a.out.now) a.failed) (printing (W.Out.state b.out.now) b.failed)
          (printing (W.Out.state c.out.now) c.failed) xs ys h.0 h.2 g.2,
    ) };
}
