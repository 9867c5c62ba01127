//! Who is told the statements of a run as long as there is time.

ghost use Rattle.std.specs.Prelude.{⊤};

use crate::{Entry, Teller};
use observing::Watch;
use std::alloc::AllocError;

/// Counts the entries of a run, tells a watch how many there are, and breaks off when time is over. None passes unmade, since making them
/// takes most of a telling's time.
#[derive(Drop)]
pub(crate) struct TimedTeller<'w, V: Watch> {
    pub(crate) watch: &'w mut V,
    /// How many milliseconds the call may have been going.
    pub(crate) until: u64,
    pub(crate) count: u32,
    pub(crate) is_over: bool,
}

impl<'w, V: Watch> Teller for TimedTeller<'w, V> {
    ghost tells = { λ a es b. ⊤ };

    ghost breaks_off = { λ a e b. ⊤ };

    fn passes(&mut self) -> bool {
        false
    }

    fn tell(&mut self, _entry: Entry) -> Result<(), AllocError> {
        if self.until <= self.watch.elapsed() {
            self.is_over = true;
            return Err(AllocError);
        }
        self.count = self.count.saturating_add(1);
        self.watch.ran(self.count);
        Ok(())
    }

    ghost tells_nothing = { λ t. tt };

    ghost tells_on = { λ a b c xs ys h g. tt };
}
