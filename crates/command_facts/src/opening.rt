//! What the cells of a run hold before its first statement.

ghost use Rattle.std.specs.Prelude.{◌≡◌, List, IfOk, IfErr, take};
ghost use Rattle.pram_model.specs.Layout.{SharedEntry, total_size};
ghost use Rattle.memory_texts.specs.Memory.{IsRefused};
ghost use Rattle.drawn_kinds.specs.Kinds.{IsDrawn};
ghost use Rattle.drawn_kinds.specs.Names.{declarations};
ghost use Rattle.scopes.specs.Drawn.{drawn};
ghost use Rattle.system_files.specs.Files.{IsSame};
ghost use Rattle.diagnoses.specs.declared.about.About.TheVariants.{Nothing};
ghost use Rattle.program_texts.specs.declared.from_text.Refusal.TheVariants.{OutOfMemory};
ghost use Rattle.program_texts.specs.declared.stop.Stop.TheVariants.{Refused};
ghost use Rattle.command_facts.specs.Found.{IsOpening};
ghost use Rattle.command_facts.specs.Held.{IsInputIn, IsOfMemoryIn, IsMemoryIn, StopsAtInput, StopsAtMemory};
ghost use Rattle.command_facts.specs.Refused.{StopsAtOpening};

use crate::loading::{load, source_of};
use command_requests::Opening;
use comparing::first_cells;
use diagnoses::{About, Halted, Kind};
use drawn_kinds::{DrawnKind, draw_kind};
use memory_texts::{MemoryFault, read_memory};
use pram_check::{Breach, Cause, Spot};
use pram_tokens::LONGEST;
use pram_trees::{Layout, read_input};
use program_texts::{Refusal, Stop};
use scopes::{Drawing, draw};
use std::alloc::Global;
use system_files::Sources;

/// The values of an input's file. It is refused where the file can't be read (P2), where its text is none (E1 to E3), and for want of
/// memory (E16).
pub fn load_input<'a, S: Sources>(
    alloc: Global,
    sources: &mut S,
    name: &'a str,
) -> Result<Vec<i64>, Halted<'a>>
    // The values are those of all that the file holds.
    ensures held { IfOk result (λ values. IsInputIn (S.Sources.holds sources.old name.now) values.items) }
    // Without them the call stops at that file: it can't be read, its text is refused, or memory was.
    ensures of_file { IfErr result (StopsAtInput (S.Sources.holds sources.old name.now) name.now) }
    // All files hold what they held.
    ensures same { IsSame (S.Sources.holds sources.new) (S.Sources.holds sources.old) }
{
    let bytes = load(alloc, sources, name, LONGEST as u32)?;
    match read_input(alloc, &bytes) {
        Ok(values) => Ok(values),
        Err(fault) => Err(Halted {
            stop: Stop::Refused(Refusal::from(fault)),
            about: About::Text(source_of(Kind::Input, name, bytes)),
        }),
    }
}

// Why the text of a memory is refused.
fn halted_memory<'a>(fault: MemoryFault, name: &'a str, bytes: Vec<u8>) -> Halted<'a>
    ensures { (layout : List SharedEntry) → IsRefused layout bytes.items fault →
        IsOfMemoryIn layout bytes.items result.stop result.about }
{
    match fault {
        MemoryFault::Text(fault) => Halted {
            stop: Stop::Refused(Refusal::Text(fault)),
            about: About::Text(source_of(Kind::Memory, name, bytes)),
        },
        MemoryFault::Unknown(at) => Halted {
            stop: Stop::Refused(Refusal::Program(Breach {
                spot: Spot::Offset(at),
                cause: Cause::UnknownName,
            })),
            about: About::Text(source_of(Kind::Memory, name, bytes)),
        },
        MemoryFault::TooMany { values, cells } => Halted {
            stop: Stop::Refused(Refusal::InputTooLong),
            about: About::Values { values, cells },
        },
        MemoryFault::OutOfMemory => Halted::from(Stop::Refused(Refusal::OutOfMemory)),
    }
}

// The values of all cells, by a memory's file.
fn load_memory<'a, S: Sources>(
    alloc: Global,
    sources: &mut S,
    name: &'a str,
    layout: &Layout,
) -> Result<Vec<i64>, Halted<'a>>
    // The values are those of all that the file holds.
    ensures held { IfOk result (λ values. IsMemoryIn (S.Sources.holds sources.old name.now) layout.now values.items) }
    ensures of_file { IfErr result (StopsAtMemory (S.Sources.holds sources.old name.now) name.now layout.now) }
    ensures same { IsSame (S.Sources.holds sources.new) (S.Sources.holds sources.old) }
{
    let bytes = load(alloc, sources, name, LONGEST as u32)?;
    match read_memory(alloc, layout, &bytes) {
        Ok(values) => Ok(values),
        Err(fault) => Err(halted_memory(fault, name, bytes)),
    }
}

// Values for all cells, drawn at random.
fn draw_all<'a>(alloc: Global, drawing: Drawing, layout: &Layout) -> Result<Vec<i64>, Halted<'a>>
    ensures values { IfOk result (λ values. values.items ≡ drawn drawing.low drawing.high drawing.seed (total_size layout.now)) }
    ensures refused { IfErr result (λ h. (h.stop ≡ Refused OutOfMemory) × (h.about ≡ Nothing)) }
{
    match draw(alloc, drawing, layout.cells()) {
        Ok(values) => Ok(values),
        Err(_) => Err(Halted::from(Stop::Refused(Refusal::OutOfMemory))),
    }
}

// An input of a kind, for the cells of the first declaration, or of the first two where it is a graph.
fn draw_input<'a>(
    alloc: Global,
    kind: DrawnKind,
    seed: u64,
    layout: &Layout,
) -> Result<Vec<i64>, Halted<'a>>
    ensures values { IfOk result (λ values. IsDrawn kind seed (total_size (take (declarations kind) layout.now)) values.items) }
    ensures refused { IfErr result (λ h. (h.stop ≡ Refused OutOfMemory) × (h.about ≡ Nothing)) }
{
    let count = first_cells(layout, kind.declarations());
    match draw_kind(alloc, kind, count, seed) {
        Ok(values) => Ok(values),
        Err(_) => Err(Halted::from(Stop::Refused(Refusal::OutOfMemory))),
    }
}

/// The values that the first cells hold before the first statement, as far as they are given. They are refused for the file of an input or
/// of a memory (P2, E1 to E3, E6, E11), and for want of memory (E16).
pub fn load_opening<'a, S: Sources>(
    alloc: Global,
    sources: &mut S,
    opening: Opening<'a>,
    layout: &Layout,
) -> Result<Vec<i64>, Halted<'a>>
    // They are the values that the words give: none, those of a file, or those that are drawn.
    ensures values { IfOk result (λ values. IsOpening (S.Sources.holds sources.old) layout.now opening.entry values.items) }
    // Without them the call stops at the file that gives them, or memory was refused.
    ensures refused { IfErr result (StopsAtOpening (S.Sources.holds sources.old) layout.now opening.entry) }
    // All files hold what they held.
    ensures same { IsSame (S.Sources.holds sources.new) (S.Sources.holds sources.old) }
{
    match opening {
        Opening::Zeros => Ok(Vec::new(alloc)),
        Opening::Input(name) => load_input(alloc, sources, name),
        Opening::Memory(name) => load_memory(alloc, sources, name, layout),
        Opening::Drawn(drawing) => draw_all(alloc, drawing, layout),
        Opening::OfKind(kind, seed) => draw_input(alloc, kind, seed, layout),
    }
}
