//! The end of a call.

ghost use Rattle.std.specs.Prelude.{◌≡◌, IfErr, IfOk};
ghost use Rattle.text_out.specs.Out.{with_failure};
ghost use Rattle.program_texts.specs.declared.stop.Stop.TheVariants.{WriteFailed};

use crate::status::Status;
use crate::stop::Stop;
use text_out::{Out, OutFailed};

/// Has the writer give on what it still holds, and answers the status; or the writer failed (E17).
pub fn finish<'a, O: Out>(out: &mut O, status: Status) -> Result<Status, Stop<'a>>
    // Where the writer doesn't fail, the given status is answered, and what it has taken stays the same.
    ensures ok { IfOk result (λ s. (s ≡ status) × (O.Out.state out.new ≡ O.Out.state out.old)) }
    // Where the writer fails, its failure is told (E17), and its state says so.
    ensures failed { IfErr result (λ stop. (stop ≡ WriteFailed) × (O.Out.state out.new ≡ with_failure (O.Out.state out.old))) }
{
    match out.flush() {
        Ok(()) => Ok(status),
        Err(OutFailed) => Err(Stop::WriteFailed),
    }
}
