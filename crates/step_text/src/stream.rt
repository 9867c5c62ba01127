//! Who writes the entries of a run as they come.

ghost use Rattle.std.proofs.Common.{◌∙◌};
ghost use Rattle.std.specs.Prelude.{◌≡◌, ◌<◌, ◌+◌, ◌^◌, ◌-◌, refl, true};
ghost use Rattle.std.specs.Option.{option_map};
ghost use Rattle.text_out.specs.Printing.{Prints, printing};
ghost use Rattle.journal.specs.Entries.{entry_is};
ghost use Rattle.step_text.specs.Passing.{is_told, one_more};
ghost use Rattle.step_text.specs.StepText.{line_of_left};
ghost use Rattle.step_text.specs.StreamLaws.{streams_nothing, streams_on};
ghost use Rattle.step_text.specs.Streams.{Streams, line_behind, line_of};

use crate::asked::Asked;
use crate::focusing::focused;
use crate::step_text::write_line;
use journal::{Entry, Teller};
use std::alloc::AllocError;
use text_out::{Out, OutFailed};

/// Writes the lines that are asked for of a run's entries as these come, and keeps none: how many were counted so far, and whether the
/// writer has failed, behind which nothing more is written.
#[derive(Drop)]
pub(crate) struct Stream<'a, W: Out> {
    pub(crate) asked: Asked<'a>,
    pub(crate) out: &'a mut W,
    pub(crate) count: usize,
    pub(crate) failed: bool,
}

impl<'a, W: Out> Stream<'a, W> {
    // Whether the next entry is one of those that are asked for.
    fn is_asked(&self) -> bool
        ensures value { result ≡ is_told self.now.asked.first self.now.asked.last self.now.count }
        ensures few { result ≡ true → self.now.count < 2 ^ 64 - 1 }
    {
        self.count < self.asked.last && self.asked.first <= self.count + 1
    }

    // One entry more is behind.
    fn count_on(&mut self)
        ensures asked { self.new.asked ≡ self.old.asked }
        ensures same_out { self.new.out.ghost_name ≡ self.old.out.ghost_name }
        ensures out { self.new.out.now ≡ self.old.out.now }
        ensures failed { self.new.failed ≡ self.old.failed }
        ensures counted { self.new.count ≡ one_more self.old.asked.last self.old.count }
    {
        if self.count < self.asked.last {
            self.count += 1;
        }
    }

    // The line of what is left of the next entry.
    fn write_left(&mut self, left: &Option<Entry>)
        requires few { self.old.count < 2 ^ 64 - 1 }
        ensures asked { self.new.asked ≡ self.old.asked }
        ensures same_out { self.new.out.ghost_name ≡ self.old.out.ghost_name }
        ensures count { self.new.count ≡ self.old.count }
        ensures prints { Prints (printing (W.Out.state self.old.out.now) self.old.failed)
            (printing (W.Out.state self.new.out.now) self.new.failed)
            (line_of_left self.old.asked.layout.now self.old.asked.telling.now (self.old.count + 1) (option_map entry_is left.now)) }
    {
        if let Some(entry) = left {
            if !self.failed {
                let (asked, number) = (self.asked, self.count + 1);
                let told = write_line(self.out, asked.layout, asked.telling, number, entry);
                self.failed = told.is_err();
            }
        }
    }

    // That of the next entry.
    fn write(&mut self, entry: Entry)
        requires few { self.old.count < 2 ^ 64 - 1 }
        ensures asked { self.new.asked ≡ self.old.asked }
        ensures same_out { self.new.out.ghost_name ≡ self.old.out.ghost_name }
        ensures count { self.new.count ≡ self.old.count }
        ensures prints { Prints (printing (W.Out.state self.old.out.now) self.old.failed)
            (printing (W.Out.state self.new.out.now) self.new.failed)
            (line_of self.old.asked self.old.count (entry_is entry)) }
    {
        let left = focused(&self.asked.telling.focus, entry);
        self.write_left(&left);
    }
}

impl<'a, W: Out> Teller for Stream<'a, W> {
    ghost tells = { λ a es b. (b.asked ≡ a.asked) × (b.out.ghost_name ≡ a.out.ghost_name)
        × Streams a.asked a.count b.count (printing (W.Out.state a.out.now) a.failed) (printing (W.Out.state b.out.now) b.failed) es };

    ghost breaks_off = { λ a e b. (b.out.ghost_name ≡ a.out.ghost_name)
        × Prints (printing (W.Out.state a.out.now) a.failed) (printing (W.Out.state b.out.now) b.failed) (line_behind a.asked a.count e) };

    #[tactic(auto, using(crate::proofs::Lines::passes_by, crate::specs::StreamLaws::streams_nothing))]
    fn passes(&mut self) -> bool {
        if self.is_asked() {
            return false;
        }
        self.count_on();
        true
    }

    #[tactic(auto, using(crate::proofs::Lines::passes_by, crate::proofs::Lines::printed_one, crate::proofs::Lines::wrote_one))]
    fn tell(&mut self, entry: Entry) -> Result<(), AllocError> {
        if !self.is_asked() {
            self.count_on();
            return Ok(());
        }
        self.write(entry);
        if self.failed {
            return Err(AllocError);
        }
        self.count_on();
        Ok(())
    }

    fn show(&mut self) -> Result<(), AllocError> {
        if self.failed {
            return Err(AllocError);
        }
        match self.out.flush() {
            Ok(()) => Ok(()),
            Err(OutFailed) => {
                self.failed = true;
                Err(AllocError)
            }
        }
    }

    ghost tells_nothing = { λ t. (refl, refl, streams_nothing t.asked t.count (printing (W.Out.state t.out.now) t.failed)) };

    ghost tells_on = { λ a b c xs ys h g. (
      g.0 ∙ h.0,
      g.1 ∙ h.1,
      streams_on a.asked b.asked a.count b.count c.count
          (printing (W.Out.state a.out.now) a.failed) (printing (W.Out.state b.out.now) b.failed)
          (printing (W.Out.state c.out.now) c.failed) xs ys h.0 h.2 g.2,
    ) };
}
