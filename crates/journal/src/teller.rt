//! Who is told the entries of a run.

ghost use Rattle.std.specs.Prelude.{◌≡◌, ◌∷◌, [], List, ◌++◌, OnOk, OnErr, false, true};
ghost use Rattle.journal.specs.Entries as spec;

use crate::Entry;
use std::alloc::AllocError;

/// Who is told what each statement of a run did, as the run goes. An entry is made for it and handed over, so of the whole run there is
/// no more in memory than what it keeps.
pub trait Teller {
    /// How a teller is changed by entries that it is told in a row.
    ghost tells: { Self → List spec.Entry → Self → Type 0 };

    /// How a teller may be left that breaks off at an entry, of which it may have told part.
    ghost breaks_off: { Self → spec.Entry → Self → Type 0 };

    /// Whether the next entry is nothing to it, whatever it says: then it counts as told, and is not made.
    fn passes(&mut self) -> bool
        ensures passed { result ≡ true → (e : spec.Entry) → tells self.old (e ∷ []) self.new }
        ensures waits { result ≡ false → tells self.old [] self.new };

    /// The next entry. The error is that memory was refused, or whatever else ends the telling: the run ends there.
    fn tell(&mut self, entry: Entry) -> Result<(), AllocError>
        ensures told { OnOk result (tells self.old (spec.entry_is entry ∷ []) self.new) }
        ensures broken { OnErr result (breaks_off self.old (spec.entry_is entry) self.new) };

    /// What was told is to be seen by now: what of it is still held on the way is handed on. The error is that this failed, behind which
    /// nothing more is told.
    fn show(&mut self) -> Result<(), AllocError>
        ensures shown { OnOk result (tells self.old [] self.new) }
        ensures broken { OnErr result ((e : spec.Entry) → breaks_off self.old e self.new) }
    {
        Ok(())
    }

    ghost tells_nothing: { (t : Self) → tells t [] t };

    ghost tells_on: { (a b c : Self) (xs ys : List spec.Entry) → tells a xs b → tells b ys c → tells a (xs ++ ys) c };
}
