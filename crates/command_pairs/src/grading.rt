//! Programs that are graded by a first one.

ghost use Rattle.std.specs.Prelude.{◌≡◌, IfOk, IfErr};
ghost use Rattle.std.specs.List.{AllZip};
ghost use Rattle.program_texts.specs.declared.stop.Stop.TheVariants.{Refused};
ghost use Rattle.program_texts.specs.declared.from_text.Refusal.TheVariants.{OutOfMemory};
ghost use Rattle.diagnoses.specs.declared.about.About.TheVariants.{Nothing};
ghost use Rattle.system_files.specs.Files.{IsSame};
ghost use Rattle.command_pairs.specs.Grades as spec;

use crate::pairing::{find_pair, load};
use command_facts::{FoundGrade, GradeRow};
use command_requests::{GradeWords, PairWords};
use diagnoses::Halted;
use program_texts::{Refusal, Stop};
use std::alloc::Global;
use system_files::Sources;

// The row of a program.
fn row_of<'a, S: Sources>(alloc: Global, words: &PairWords<'a>, sources: &mut S) -> GradeRow<'a>
    ensures row { spec.IsRow (S.Sources.holds sources.old) words.now result }
    ensures same { IsSame (S.Sources.holds sources.new) (S.Sources.holds sources.old) }
{
    let name = words.second.name;
    let graded = find_pair(alloc, words, sources);
    GradeRow { name, graded }
}

// The rows of programs, in their order.
fn rows_of<'a, S: Sources>(
    alloc: Global,
    pairs: &[PairWords<'a>],
    sources: &mut S,
) -> Result<Vec<GradeRow<'a>>, Halted<'a>>
    ensures rows { IfOk result (λ rows. AllZip (spec.IsRow (S.Sources.holds sources.old)) pairs.now rows.items) }
    ensures refused { IfErr result (λ h. (h.stop ≡ Refused OutOfMemory) × (h.about ≡ Nothing)) }
{
    let mut rows = Vec::new(alloc);
    for words in pairs {
        let row = row_of(alloc, words, sources);
        let Ok(()) = rows.push(row) else {
            return Err(Halted::from(Stop::Refused(Refusal::OutOfMemory)));
        };
    }
    Ok(rows)
}

/// What is found of programs that are graded by a first one: a row for each, in their order. A program that is refused takes its row. It is
/// refused only for the first program's file, and where memory for the rows was refused (E16).
pub fn find_grade<'a, S: Sources>(
    alloc: Global,
    words: &GradeWords<'a>,
    sources: &mut S,
) -> Result<FoundGrade<'a>, Halted<'a>>
    // Each program has a row, in their order: what is found of the first program and it alone, or why nothing is.
    ensures found { IfOk result (spec.IsGraded (S.Sources.holds sources.old) words.now) }
    // Nothing is found only for the first program's file, or want of memory.
    ensures refused { IfErr result (spec.StopsAtGrade (S.Sources.holds sources.old) words.now) }
{
    let reference = load(alloc, &words.reference, sources)?;
    let rows = rows_of(alloc, &words.pairs, sources)?;
    Ok(FoundGrade {
        name: words.reference.name,
        reference,
        rows,
    })
}
