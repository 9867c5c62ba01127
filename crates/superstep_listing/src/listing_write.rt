//! The writer of listings.

ghost use Rattle.std.specs.Prelude.{◌≡◌, ◌≤◌, length};
ghost use Rattle.text_out.specs.Out.{Writes};
ghost use Rattle.superstep_listing.specs.Listing.{spelling};
ghost use Rattle.superstep_listing.specs.Text.{IsListing, longest};

use crate::printer::Printer;
use superstep_instructions::Code;
use text_out::{Out, WriteFault};

/// Writes the listing of code, the one text that `read_listing` reads as this code: each line is
/// ended by LF, its words have one space between them, and its numbers are decimal, without
/// leading zeros.
///
/// `WriteFault` (E17) says that the writer failed. What it took is a beginning of the listing.
pub fn write_listing<W: Out>(code: &Code, out: &mut W) -> Result<(), WriteFault>
    // The spelling of the code is written, all of it, or a beginning where the writer fails.
    ensures written { Writes (W.Out.state out.old) (W.Out.state out.new) (spelling code.now) result }
{
    let mut printer = Printer { out, failed: false };
    printer.code(code);
    let Printer { failed, .. } = printer;
    if failed { Err(WriteFault) } else { Ok(()) }
}

/// What `write_listing` writes, if it is short enough, is the listing of that code. So
/// `read_listing` finds that code, unless memory is refused.
pub fn writing_reads_back(code: &Code)
    // The spelling of code, if it has at most 8,388,608 bytes, is a listing of that code.
    ensures reads_back { length (spelling code.now) ≤ longest → IsListing (spelling code.now) code.now }
{
    let _instructions = code.instructions();
}
