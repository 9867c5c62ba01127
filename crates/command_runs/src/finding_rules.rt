//! Programs under each of the rules.

ghost use Rattle.std.specs.Prelude.{IfOk, IfErr};
ghost use Rattle.command_runs.specs.Refused.{NamesNone, RefusesMeaning};
ghost use Rattle.command_runs.specs.Runs.{IsComparisonFound};

use crate::given::load_given;
use command_facts::halted_run;
use command_requests::{Opening, ProgramFile};
use comparing::{UnderRules, compare_rules};
use diagnoses::Halted;
use observing::Watch;
use program_texts::Refusal;
use std::alloc::Global;
use system_files::Sources;

/// How the file's program comes out under each rule, in at most so many statements. It is refused as [`find_cost`](crate::find_cost) is.
pub fn find_rules<'a, S: Sources, V: Watch>(
    alloc: Global,
    file: &ProgramFile<'a>,
    opening: Opening<'a>,
    bound: u32,
    sources: &mut S,
    watch: &mut V,
) -> Result<UnderRules, Halted<'a>>
    // It is the comparison of the file's program on what the words give, within the bound.
    ensures found { IfOk result (IsComparisonFound (S.Sources.holds sources.old) file.now opening.entry bound) }
    // None is found only for the program's file, what the cells hold, or the runs.
    ensures refused { IfErr result (RefusesMeaning (S.Sources.holds sources.old) file.now opening.entry NamesNone) }
{
    let (loaded, input) = load_given(alloc, file, opening, sources)?;
    let cells = loaded.program.layout().cells();
    let found = compare_rules(alloc, loaded.program, &input, bound, watch);
    watch.close();
    match found {
        Ok(comparison) => Ok(comparison),
        Err(why) => Err(halted_run(Refusal::from(why), &input, cells)),
    }
}
