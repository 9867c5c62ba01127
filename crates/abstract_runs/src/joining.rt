//! Copies and joins of what is known of a run.

ghost use Rattle.std.specs.Prelude.{◌≡◌, ◌≤◌, ◌↔◌, true, IfOk, min, max};
ghost use Rattle.pram_meaning.specs.Store.{State};
ghost use Rattle.abstract_runs.specs.Following.{Follows, IsSameSize};
ghost use Rattle.abstract_runs.specs.Likeness.{IsSame};
ghost use Rattle.abstract_runs.specs.Standing.{IsKnownAs};

use crate::covers::{grow_all, is_within_all};
use crate::growth::Growth;
use crate::standing::Standing;
use std::alloc::{AllocError, Global};

impl Standing {
    /// The same once more.
    pub fn copied(&self, alloc: Global) -> Result<Standing, AllocError>
        // The copy says the same of a run.
        ensures same { IfOk result (λ s. IsSame self.now s) }
        // It holds of exactly the states of which this holds.
        ensures known { IfOk result (λ s. (m : State) → IsKnownAs self.now m ↔ IsKnownAs s m) }
        // It has an interval for as many values.
        ensures size { IfOk result (λ s. IsSameSize self.now s) }
    {
        let uniforms = Vec::from_slice(alloc, &self.uniforms)?;
        let cells = Vec::from_slice(alloc, &self.cells)?;
        let origins = Vec::from_slice(alloc, &self.origins)?;
        Ok(Standing {
            least: self.least,
            most: self.most,
            uniforms,
            cells,
            origins,
        })
    }

    // What is known where a run came this way or the other, and of runs of more statements.
    fn grow(&mut self, other: &Standing, growth: Growth, most: u32)
        requires { IsSameSize self.old other.now }
        ensures left { (m : State) → IsKnownAs self.old m → IsKnownAs self.new m }
        ensures right { (m : State) → IsKnownAs other.now m → IsKnownAs self.new m }
        ensures least { self.new.least ≡ min self.old.least other.now.least }
        ensures most { self.new.most ≡ max (max self.old.most other.now.most) most }
        ensures size { IsSameSize self.old self.new }
    {
        self.least = self.least.min(other.least);
        self.most = self.most.max(other.most).max(most);
        grow_all(&mut self.uniforms, &other.uniforms, growth);
        grow_all(&mut self.cells, &other.cells, growth);
        grow_all(&mut self.origins, &other.origins, growth);
    }

    /// What is known where a run came this way or the other.
    pub fn join(&mut self, other: &Standing)
        requires { IsSameSize self.old other.now }
        // What was known of a state is known still.
        ensures left { (m : State) → IsKnownAs self.old m → IsKnownAs self.new m }
        // What the other knows of a state is known.
        ensures right { (m : State) → IsKnownAs other.now m → IsKnownAs self.new m }
        // There is an interval for as many values as before.
        ensures size { IsSameSize self.old self.new }
        // Where both come later than something, so does the join.
        ensures follows { (before : Standing) → Follows before self.old → Follows before other.now → Follows before self.new }
    {
        self.grow(other, Growth::Least, 0);
    }

    /// What is known where a run came this way or the other, with intervals that grow to marks, of runs up to a bound.
    pub fn widen(&mut self, other: &Standing, marks: &[i64], bound: u32)
        requires { IsSameSize self.old other.now }
        // What was known of a state is known still.
        ensures left { (m : State) → IsKnownAs self.old m → IsKnownAs self.new m }
        // What the other knows of a state is known.
        ensures right { (m : State) → IsKnownAs other.now m → IsKnownAs self.new m }
        // As few statements may have run as before or by the other.
        ensures least { self.new.least ≡ min self.old.least other.now.least }
        // As many may have run as before, by the other or up to the bound.
        ensures most { self.new.most ≡ max (max self.old.most other.now.most) bound }
        // There is an interval for as many values as before.
        ensures size { IsSameSize self.old self.new }
        // Where both come later than something, so does the result.
        ensures follows { (before : Standing) → Follows before self.old → Follows before other.now → Follows before self.new }
    {
        self.grow(other, Growth::ToMarks(marks), bound);
    }

    /// What is known where a run came this way or the other, with all numbers where they differ, of runs up to a bound.
    pub fn widen_to_all(&mut self, other: &Standing, bound: u32)
        requires { IsSameSize self.old other.now }
        // What was known of a state is known still.
        ensures left { (m : State) → IsKnownAs self.old m → IsKnownAs self.new m }
        // What the other knows of a state is known.
        ensures right { (m : State) → IsKnownAs other.now m → IsKnownAs self.new m }
        // As few statements may have run as before or by the other.
        ensures least { self.new.least ≡ min self.old.least other.now.least }
        // As many may have run as before, by the other or up to the bound.
        ensures most { self.new.most ≡ max (max self.old.most other.now.most) bound }
        // There is an interval for as many values as before.
        ensures size { IsSameSize self.old self.new }
        // Where both come later than something, so does the result.
        ensures follows { (before : Standing) → Follows before self.old → Follows before other.now → Follows before self.new }
    {
        self.grow(other, Growth::ToAll, bound);
    }

    /// Whether the other stands for whatever this stands for.
    pub fn is_within(&self, other: &Standing) -> bool
        // Where that is so, what this knows of a state the other knows.
        ensures { result ≡ true → (m : State) → IsKnownAs self.now m → IsKnownAs other.now m }
    {
        other.least <= self.least
            && self.most <= other.most
            && is_within_all(&self.uniforms, &other.uniforms)
            && is_within_all(&self.cells, &other.cells)
            && is_within_all(&self.origins, &other.origins)
    }
}
