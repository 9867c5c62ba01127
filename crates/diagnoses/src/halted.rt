//! Why a call ends without an outcome, and what is known besides.

ghost use Rattle.std.specs.Prelude.{◌≡◌};
ghost use Rattle.diagnoses.specs.declared.about.About.TheVariants.{Nothing};

use crate::about::About;
use program_texts::Stop;

/// Why a call ends without an outcome, and what is known besides.
#[derive(Drop)]
pub struct Halted<'a> {
    pub stop: Stop<'a>,
    pub about: About<'a>,
}

impl<'a> From<Stop<'a>> for Halted<'a> {
    ghost from_gives = { λ stop h. (h.stop ≡ stop) × (h.about ≡ Nothing) };

    fn from(stop: Stop<'a>) -> Halted<'a> {
        Halted {
            stop,
            about: About::Nothing,
        }
    }
}
