//! Programs of files, and behind them what their cells hold before a run.

ghost use Rattle.std.specs.Prelude.{◌≡◌, ◌⊎◌, IfOk, IfErr};
ghost use Rattle.system_files.specs.Files.{IsSame};
ghost use Rattle.command_facts.specs.Found.{IsLoaded, IsOpening};
ghost use Rattle.command_facts.specs.Held.{StopsAtProgram};
ghost use Rattle.command_runs.specs.Refused.{IsForeignTo, IsUnknownIn, NamesForeign, NamesNone, NamesUnknown, StopsBehindProgram};
ghost use Rattle.command_runs.specs.Runs.{AreNamed, AreThere};

use command_facts::{Loaded, load_opening, load_program};
use command_requests::{Opening, ProgramFile, StepWords};
use diagnoses::Halted;
use memory_texts::{Choice, unknown_name};
use pram_trees::{Layout, Tree};
use program_texts::Stop;
use std::alloc::Global;
use step_text::undeclared_name;
use system_files::Sources;

/// Stops at the first name that is to be shown and is that of no declaration (P1).
pub(crate) fn check_names<'a>(layout: &Layout, shown: Choice<'a>) -> Result<(), Halted<'a>>
    ensures there { IfOk result (λ _. AreThere layout.now shown.entry) }
    ensures unknown { IfErr result (λ h. IsUnknownIn layout.now shown.entry h.stop h.about) }
{
    match unknown_name(layout, shown) {
        None => Ok(()),
        Some(name) => Err(Halted::from(Stop::Number(name))),
    }
}

// Stops at the first name of which alone is to be told and that the program doesn't have (P1).
fn check_told<'a>(tree: &Tree, steps: StepWords<'a>) -> Result<(), Halted<'a>>
    ensures named { IfOk result (λ _. AreNamed tree.now steps.entry) }
    ensures foreign { IfErr result (λ h. IsForeignTo tree.now steps.entry h.stop h.about) }
{
    match undeclared_name(tree, steps.only) {
        None => Ok(()),
        Some(name) => Err(Halted::from(Stop::Number(name))),
    }
}

/// The program of a file, and behind it what its first cells hold before the first statement.
pub(crate) fn load_given<'a, S: Sources>(
    alloc: Global,
    file: &ProgramFile<'a>,
    opening: Opening<'a>,
    sources: &mut S,
) -> Result<(Loaded<'a>, Vec<i64>), Halted<'a>>
    ensures loaded { IfOk result (λ given. IsLoaded (S.Sources.holds sources.old file.now.name.now) file.now given.0) }
    ensures input { IfOk result (λ given. IsOpening (S.Sources.holds sources.old) given.0.program.layout opening.entry given.1.items) }
    ensures refused { IfErr result (λ h. StopsAtProgram (S.Sources.holds sources.old file.now.name.now) file.now h
        ⊎ StopsBehindProgram (S.Sources.holds sources.old) file.now opening.entry NamesNone h) }
    ensures same { IsSame (S.Sources.holds sources.new) (S.Sources.holds sources.old) }
{
    let loaded = load_program(alloc, sources, file)?;
    let input = load_opening(alloc, sources, opening, loaded.program.layout())?;
    Ok((loaded, input))
}

/// The same, where the program declares what is to be shown.
pub(crate) fn load_shown<'a, S: Sources>(
    alloc: Global,
    file: &ProgramFile<'a>,
    opening: Opening<'a>,
    shown: Choice<'a>,
    sources: &mut S,
) -> Result<(Loaded<'a>, Vec<i64>), Halted<'a>>
    ensures loaded { IfOk result (λ given. IsLoaded (S.Sources.holds sources.old file.now.name.now) file.now given.0) }
    ensures there { IfOk result (λ given. AreThere given.0.program.layout shown.entry) }
    ensures input { IfOk result (λ given. IsOpening (S.Sources.holds sources.old) given.0.program.layout opening.entry given.1.items) }
    ensures refused { IfErr result (λ h. StopsAtProgram (S.Sources.holds sources.old file.now.name.now) file.now h
        ⊎ StopsBehindProgram (S.Sources.holds sources.old) file.now opening.entry (NamesUnknown shown.entry) h) }
    ensures same { IsSame (S.Sources.holds sources.new) (S.Sources.holds sources.old) }
{
    let loaded = load_program(alloc, sources, file)?;
    check_names(loaded.program.layout(), shown)?;
    let input = load_opening(alloc, sources, opening, loaded.program.layout())?;
    Ok((loaded, input))
}

/// The same, where it has the names of what is to be told statement by statement.
pub(crate) fn load_told<'a, S: Sources>(
    alloc: Global,
    file: &ProgramFile<'a>,
    opening: Opening<'a>,
    steps: StepWords<'a>,
    sources: &mut S,
) -> Result<(Loaded<'a>, Vec<i64>), Halted<'a>>
    ensures loaded { IfOk result (λ given. IsLoaded (S.Sources.holds sources.old file.now.name.now) file.now given.0) }
    ensures there { IfOk result (λ given. AreThere given.0.program.layout steps.entry.drawn) }
    ensures named { IfOk result (λ given. AreNamed given.0.program.tree steps.entry) }
    ensures input { IfOk result (λ given. IsOpening (S.Sources.holds sources.old) given.0.program.layout opening.entry given.1.items) }
    ensures refused { IfErr result (λ h. StopsAtProgram (S.Sources.holds sources.old file.now.name.now) file.now h
        ⊎ StopsBehindProgram (S.Sources.holds sources.old) file.now opening.entry (NamesForeign steps.entry) h) }
    ensures same { IsSame (S.Sources.holds sources.new) (S.Sources.holds sources.old) }
{
    let loaded = load_program(alloc, sources, file)?;
    check_names(loaded.program.layout(), steps.drawn)?;
    check_told(loaded.program.tree(), steps)?;
    let input = load_opening(alloc, sources, opening, loaded.program.layout())?;
    Ok((loaded, input))
}
