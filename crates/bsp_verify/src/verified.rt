//! Code that was verified.

ghost use Rattle.std.specs.Prelude.{◌≡◌};
ghost use Rattle.bsp_verify.specs.WellFormed.{IsWellFormed};

use std::marker::Model;
use superstep_instructions::Code;

/// Well-formed code.
#[derive(Drop)]
pub struct Verified {
    pub(crate) code: Code,
}

impl Model for Verified {
    ghost use Rattle.superstep_instructions.specs.Code.{SuperstepCode};
    ghost use Rattle.bsp_verify.specs.WellFormed.{IsWellFormed};

    ghost Value = { SuperstepCode };

    ghost view = { λ v. v.code };

    ghost invariant = { λ v. IsWellFormed v.code };
}

impl Verified {
    /// The code.
    pub fn code(&self) -> &Code
        ensures value { result.now ≡ self.now }
        // Verified code is well formed.
        ensures stands { IsWellFormed self.now }
    {
        &self.code
    }

    /// The code alone.
    pub fn into_code(self) -> Code
        ensures value { result ≡ self }
        ensures stands { IsWellFormed self }
    {
        self.code
    }
}
