//! What the files of a call hold.

ghost use Rattle.std.specs.Prelude.{◌≡◌, ℕ, List, None, IfOk, IfErr, Err};
ghost use Rattle.superstep_instructions.specs.Code.{SuperstepCode};
ghost use Rattle.superstep_instructions.specs.Limits.{IsCode};
ghost use Rattle.superstep_listing.specs.Text.{IsFaultOf, IsListing};
ghost use Rattle.bsp_verify.specs.WellFormed.{IsWellFormed};
ghost use Rattle.bsp_verify.specs.FirstFault.{IsRefusal};
ghost use Rattle.system_files.specs.Files.{IsReadFrom, IsSame};
ghost use Rattle.program_texts.specs.declared.stop.Stop.TheVariants.{Unreadable};
ghost use Rattle.diagnoses.specs.declared.about.About.TheVariants.{File};
ghost use Rattle.command_facts.specs.Found.{IsLoaded};
ghost use Rattle.command_facts.specs.Held.{IsOfMissing, IsListingIn, IsOfCodeIn, IsTextIn, IsUnread, StopsAtListing, StopsAtProgram};
ghost use Rattle.command_facts.specs.Held.{StopsAtText};
ghost use Rattle.command_facts.specs.Listings.{IsOfListing, line_of_instruction};
ghost use Rattle.command_facts.specs.Listings.{reason_word as spec_reason_word};

use crate::loaded::Loaded;
use bsp_verify::{Reason, Verified, VerifyFault, verify};
use command_requests::{ProgramFile, expanded, sizes_of};
use diagnoses::{About, Halted, Kind, Source, Unread};
use help::nearest_name;
use pram_tokens::LONGEST;
use pram_trees::TextFault;
use program_texts::{Refusal, Stop, read_program};
use std::alloc::Global;
use superstep_instructions::Code;
use superstep_listing::{LONGEST as LONGEST_LISTING, ListingFault, read_listing};
use system_files::{SourceFault, Sources};

fn no_file<'a>(name: &'a str, why: Unread) -> Halted<'a>
    ensures stop { result.stop ≡ Unreadable name.entry }
    ensures about { result.about ≡ File why }
{
    Halted {
        stop: Stop::Unreadable(name),
        about: About::File(why),
    }
}

// The name of a file beside one that is not there, if one is spelled nearly so.
fn near<S: Sources>(alloc: Global, sources: &mut S, name: &str) -> Option<Vec<u8>>
    ensures same { IsSame (S.Sources.holds sources.new) (S.Sources.holds sources.old) }
{
    match sources.beside(alloc, name) {
        Ok(beside) => match nearest_name(alloc, &beside.others, &beside.name) {
            Ok(found) => found,
            Err(_) => None,
        },
        Err(_) => None,
    }
}

// There is no file of this name.
fn missing<'a, S: Sources>(alloc: Global, sources: &mut S, name: &'a str) -> Halted<'a>
    ensures stop { result.stop ≡ Unreadable name.entry }
    ensures about { IsOfMissing result.about }
    ensures same { IsSame (S.Sources.holds sources.new) (S.Sources.holds sources.old) }
{
    let found = near(alloc, sources, name);
    no_file(name, Unread::Missing(found))
}

/// The bytes of a file, up to one more than the most that its text may have.
pub(crate) fn load<'a, S: Sources>(
    alloc: Global,
    sources: &mut S,
    name: &'a str,
    most: u32,
) -> Result<Vec<u8>, Halted<'a>>
    ensures bytes { IfOk result (λ bytes. IsReadFrom (S.Sources.holds sources.old name.now) most bytes.items) }
    ensures unread { IfErr result (λ h. IsUnread (S.Sources.holds sources.old name.now) name.now h.stop h.about) }
    ensures same { IsSame (S.Sources.holds sources.new) (S.Sources.holds sources.old) }
{
    match sources.read(alloc, name, most) {
        Ok(bytes) => Ok(bytes),
        Err(SourceFault::Missing) => Err(missing(alloc, sources, name)),
        Err(SourceFault::Directory) => Err(no_file(name, Unread::Directory)),
        Err(SourceFault::Unreadable) => Err(no_file(name, Unread::Other)),
        Err(SourceFault::OutOfMemory) => Err(Halted::from(Stop::Refused(Refusal::OutOfMemory))),
    }
}

/// The text of a program's file, with what it comes to by its sizes.
///
/// It is refused for a word that gives no size (P1), for the file (P2, E1, E2), for its sizes (E19, P1), and for want of memory (E16).
pub fn load_text<'a, S: Sources>(
    alloc: Global,
    sources: &mut S,
    file: &ProgramFile<'a>,
) -> Result<Source<'a>, Halted<'a>>
    // It is all that the file of that name holds.
    ensures text { IfOk result (IsTextIn (S.Sources.holds sources.old file.now.name.now) file.now.sizes.items) }
    // Without it the call stops at a word that gives no size, at that file, or at its text.
    ensures refused { IfErr result (StopsAtText (S.Sources.holds sources.old file.now.name.now) file.now) }
    // All files hold what they held.
    ensures same { IsSame (S.Sources.holds sources.new) (S.Sources.holds sources.old) }
{
    let sizes = sizes_of(alloc, &file.sizes)?;
    let bytes = load(alloc, sources, file.name, LONGEST as u32)?;
    match expanded(alloc, &bytes, &file.sizes, &sizes) {
        Ok(expansion) => Ok(Source {
            kind: Kind::Program,
            name: file.name,
            bytes,
            expansion: Some(expansion),
        }),
        Err(stop) => Err(Halted {
            stop,
            about: About::Text(source_of(Kind::Program, file.name, bytes)),
        }),
    }
}

/// The program of a file. It is refused as [`load_text`] refuses its text, and where that is no program (E3 to E10).
pub fn load_program<'a, S: Sources>(
    alloc: Global,
    sources: &mut S,
    file: &ProgramFile<'a>,
) -> Result<Loaded<'a>, Halted<'a>>
    // It is the program of all that the file of that name holds.
    ensures loaded { IfOk result (IsLoaded (S.Sources.holds sources.old file.now.name.now) file.now) }
    // Without it the call stops at its text, or at what that comes to.
    ensures refused { IfErr result (StopsAtProgram (S.Sources.holds sources.old file.now.name.now) file.now) }
    // All files hold what they held.
    ensures same { IsSame (S.Sources.holds sources.new) (S.Sources.holds sources.old) }
{
    let source = load_text(alloc, sources, file)?;
    match read_program(alloc, source.text()) {
        Ok(program) => Ok(Loaded { source, program }),
        Err(refusal) => Err(Halted {
            stop: Stop::Refused(refusal),
            about: About::Text(source),
        }),
    }
}

/// A text that stands for itself.
pub(crate) fn source_of<'a>(kind: Kind, name: &'a str, bytes: Vec<u8>) -> Source<'a>
    ensures bytes { result.bytes.items ≡ bytes.items }
    ensures itself { result.expansion ≡ None }
{
    Source {
        kind,
        name,
        bytes,
        expansion: None,
    }
}

// Why a text is no listing.
fn stop_of_listing<'a>(fault: ListingFault) -> Stop<'a>
    ensures { (text : List ℕ) → IsFaultOf {X = SuperstepCode} text (Err fault) → IsOfListing result text }
{
    match fault {
        ListingFault::TextTooLong => Stop::Refused(Refusal::Text(TextFault::TextTooLong)),
        ListingFault::BadListing(at) => Stop::BadListing(at),
        ListingFault::OutOfMemory => Stop::Refused(Refusal::OutOfMemory),
    }
}

// The word for what is wrong with an instruction.
fn reason_word(reason: Reason) -> &'static str
    ensures { result.now ≡ spec_reason_word reason }
{
    match reason {
        Reason::State => "state",
        Reason::Register => "register",
        Reason::Entry => "entry",
        Reason::Target => "target",
        Reason::Mode => "mode",
        Reason::Mask => "mask",
        Reason::Exchange => "exchange",
        Reason::End => "end",
    }
}

// The line of a listing on which an instruction stands: six stand before the first one, and one for each declaration.
fn line_of(code: &Code, at: u32) -> usize
    requires { IsCode code.now }
    ensures { result ≡ line_of_instruction code.now at }
{
    code.layout().len() + 7 + at as usize
}

// Why the code of a listing is not run, and the line where it is wrong.
fn halted_listing<'a>(fault: VerifyFault, code: &Code, source: Source<'a>) -> Halted<'a>
    requires listing { IsListing source.bytes.items code.now }
    requires itself { source.expansion ≡ None }
    requires refused { IsRefusal code.now fault }
    ensures of_text { IsOfCodeIn source.entry.bytes.items result.stop result.about }
{
    match fault {
        VerifyFault::NotVerified { at, reason } => {
            let line = line_of(code, at);
            Halted {
                stop: Stop::NotVerified(at, reason_word(reason)),
                about: About::Line { source, line },
            }
        }
        VerifyFault::OutOfMemory => Halted {
            stop: Stop::Refused(Refusal::OutOfMemory),
            about: About::Nothing,
        },
    }
}

/// The code of a listing's file, verified. It is refused for the file (P2, E2), where its text is no listing (E15) or its code isn't well
/// formed (E14), and for want of memory (E16).
pub fn load_listing<'a, S: Sources>(
    alloc: Global,
    sources: &mut S,
    name: &'a str,
) -> Result<Verified, Halted<'a>>
    // The code is well formed.
    ensures verified { IfOk result IsWellFormed }
    // The listing is all that the file of that name holds.
    ensures held { IfOk result (IsListingIn (S.Sources.holds sources.old name.now)) }
    // Without it the call stops at that file, at its text or at its code.
    ensures of_file { IfErr result (StopsAtListing (S.Sources.holds sources.old name.now) name.now) }
    // All files hold what they held.
    ensures same { IsSame (S.Sources.holds sources.new) (S.Sources.holds sources.old) }
{
    let bytes = load(alloc, sources, name, LONGEST_LISTING as u32)?;
    let code = match read_listing(alloc, &bytes) {
        Ok(code) => code,
        Err(fault) => {
            return Err(Halted {
                stop: stop_of_listing(fault),
                about: About::Text(source_of(Kind::Listing, name, bytes)),
            });
        }
    };
    match verify(alloc, code) {
        Ok(verified) => Ok(verified),
        Err((fault, code)) => {
            let source = source_of(Kind::Listing, name, bytes);
            Err(halted_listing(fault, &code, source))
        }
    }
}
