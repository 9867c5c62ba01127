//! How it is said what a call finds.

ghost use Rattle.std.specs.Prelude.{ℕ, List, map};
ghost use Rattle.std.specs.String.{string_bytes};
ghost use Rattle.text_out.specs.Out.{OutState};
ghost use Rattle.program_texts.specs.declared.status.Status as ghost_status;
ghost use Rattle.program_texts.specs.declared.stop.Stop as ghost_stop;
ghost use Rattle.diagnoses.specs.declared.about.About as ghost_about;
ghost use Rattle.command_facts.specs.declared.found.Found as ghost_found;

use crate::found::{Found, FoundSteps, Settled};
use diagnoses::Halted;
use observing::Watch;
use program_texts::Status;
use std::alloc::Global;
use text_out::Out;

/// How what a call finds is said, and what it is refused for: in words, or as JSON.
pub trait Voice {
    /// What stands on standard output and on standard error, and the exit status, behind what a call of these words found.
    ghost leaves: { Self → List (List ℕ) → ghost_found.Found → (out out_new err err_new : OutState) → ghost_status.Status → Type 0 };

    /// What stands on standard error where a call of these words is refused.
    ghost refuses: { Self → List (List ℕ) → ghost_stop.Stop → ghost_about.About → (err err_new : OutState) → Type 0 };

    /// What stands on standard error where an input was written into a file of this name.
    ghost wrote: { Self → List ℕ → (err err_new : OutState) → Type 0 };

    /// Says what was found and is known whole.
    fn say_settled<V: Watch, O: Out, E: Out>(
        &self,
        alloc: Global,
        words: &[String],
        found: &Settled<'_>,
        watch: &mut V,
        out: &mut O,
        err: &mut E,
    ) -> Status
        // Both streams are left as the voice's relation has it for what was found, with that exit status.
        ensures left { leaves self.now (map string_bytes words.now) (Found.Settled found.now) (O.Out.state out.old) (O.Out.state out.new)
            (E.Out.state err.old) (E.Out.state err.new) result };

    /// Runs a program, and says what it does as it goes.
    fn say_steps<V: Watch, O: Out, E: Out>(
        &self,
        alloc: Global,
        words: &[String],
        steps: FoundSteps<'_>,
        watch: &mut V,
        out: &mut O,
        err: &mut E,
    ) -> Status
        // Both streams are left as the voice's relation has it for a run that is told as it goes.
        ensures left { leaves self.now (map string_bytes words.now) (Found.Stepped steps.entry) (O.Out.state out.old)
            (O.Out.state out.new) (E.Out.state err.old) (E.Out.state err.new) result };

    /// Says why a call of these words is refused. That it fails changes no status.
    fn refuse<E: Out>(&self, alloc: Global, words: &[String], halted: &Halted<'_>, err: &mut E)
        // Standard error is left as the voice's relation has it for this refusal.
        ensures said { refuses self.now (map string_bytes words.now) halted.now.stop halted.now.about (E.Out.state err.old)
            (E.Out.state err.new) };

    /// Says that an input was written into a file of this name. That it fails changes no status.
    fn say_written<E: Out>(&self, name: &str, err: &mut E)
        // Standard error is left as the voice's relation has it for this name.
        ensures said { wrote self.now name.now (E.Out.state err.old) (E.Out.state err.new) };
}
