//! The reader of listings.

ghost use Rattle.std.specs.Prelude.{◌≡◌, ◌<◌, ◌↔◌, Err, length, IfOk, IfErr};
ghost use Rattle.superstep_listing.specs.declared.error.ListingFault.TheVariants.{TextTooLong};
ghost use Rattle.superstep_instructions.specs.Code.{SuperstepCode};
ghost use Rattle.superstep_instructions.specs.Limits.{IsCode};
ghost use Rattle.superstep_listing.specs.Listing.{spelling};
ghost use Rattle.superstep_listing.specs.Reading.{AreCode, IsReadError};
ghost use Rattle.superstep_listing.specs.Text as spec;

use crate::error::{ListingFault, ReadError};
use crate::instrs_read::rest_of;
use crate::layout_read::layout_of;
use crate::lines::{next_field, next_rule, next_version};
use std::alloc::Global;
use superstep_instructions::Code;

/// The greatest length of a listing, in bytes.
pub const LONGEST: usize = 8_388_608;

/// The greatest number of processors of a range.
const MOST_PROCS: u32 = 16_384;

/// The code of a listing of any length.
fn code_of(alloc: Global, text: &[u8]) -> Result<Code, ReadError>
    ensures stands { IfOk result (λ code. IsCode code) }
    ensures spelled { IfOk result (λ code. text.now ≡ spelling code) }
    ensures wrong { IfErr result (λ e. IsReadError AreCode text.now e) }
{
    let Some(behind) = next_version(text) else {
        return Err(ReadError::Bad(text.len()));
    };
    let Some((rule, body)) = next_rule(behind) else {
        return Err(ReadError::Bad(behind.len()));
    };
    let Some((procs, entries)) = next_field(body, b"procs", 1, MOST_PROCS) else {
        return Err(ReadError::Bad(body.len()));
    };
    let (layout, lines) = layout_of(alloc, entries)?;
    let rest = match rest_of(alloc, lines) {
        Ok(rest) => rest,
        Err(fault) => return Err(fault),
    };
    Ok(Code::of(
        rule,
        procs,
        layout,
        rest.uniform,
        rest.private,
        rest.instructions,
    ))
}

/// The code of a listing: lines that are each ended by LF, of words with one space between each
/// two, with decimal numbers without leading zeros or `-0`. The lines are `bsp 1`; `rule R`, with
/// one of the words `erew crew common priority sum`; `procs M`, from 1 to 16,384; for each shared
/// declaration `cell NAME` or `array NAME LOW HIGH`, all names different and none a keyword, with
/// bounds from 0 to 9,223,372,036,854,775,807 and together at most 1,048,576 cells; `uniform U`,
/// `private R` and `code N`, each up to 65,536; then N lines `K INSTRUCTION`, numbered from 0.
/// Nothing follows.
///
/// A text of more than 8,388,608 bytes is `ListingFault::TextTooLong` (E2), whatever it says.
/// Then the first line that isn't so, or that no LF ends, is `ListingFault::BadListing` (E15)
/// with its offset, and with the text's length where lines are missing.
/// `ListingFault::OutOfMemory` (E16) says that memory was refused.
pub fn read_listing(alloc: Global, text: &[u8]) -> Result<Code, ListingFault>
    // The text is the one spelling of the answered code, which keeps the limits; so no code has two listings.
    ensures found { IfOk result (λ code. spec.IsListing text.now code) }
    // Any code of which the text is the listing is the answer, unless memory was refused; so no text is the listing of
    // two.
    ensures only { (code : SuperstepCode) → spec.IsListing text.now code → spec.IsAnswer code result }
    // The text is refused as too long exactly if it has more than 8,388,608 bytes, whether or not there is memory.
    ensures too_long { (result ≡ Err TextTooLong) ↔ (spec.longest < length text.now) }
    // A bad listing is told at the first line with which no listing begins. Refused memory is told only of a text that
    // isn't too long.
    ensures refused { spec.IsFaultOf text.now result }
{
    if text.len() > LONGEST {
        return Err(ListingFault::TextTooLong);
    }
    match code_of(alloc, text) {
        Ok(code) => Ok(code),
        Err(fault) => match fault {
            ReadError::OutOfMemory => Err(ListingFault::OutOfMemory),
            ReadError::Bad(left) => Err(ListingFault::BadListing((text.len() - left) as u32)),
        },
    }
}
