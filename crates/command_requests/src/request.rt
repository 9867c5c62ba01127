//! What a call of the program asks for.

use crate::always_words::AlwaysWords;
use crate::arrange_words::ArrangeWords;
use crate::cost_words::CostWords;
use crate::opening::Opening;
use crate::pair_words::{GradeWords, PairWords};
use crate::run_words::{MeaningWords, RunWords};
use crate::scope_words::ScopeWords;
use crate::specification_files::SpecificationFiles;
use crate::step_words::StepWords;
use crate::sweep_words::SweepWords;
use crate::trace_words::TraceWords;
use help::Subject;
use memory_texts::Choice;

/// A word by which a number is given for a size.
#[derive(Clone, Copy, Debug, Drop)]
pub enum SizeWord<'a> {
    /// This one, which is to be `NAME=VALUE`.
    Given(&'a str),
    /// That of a sweep, as `n=4,8,16`, at one of its sizes.
    Swept(&'a str, u64),
}

/// The text of a program: the file that it stands in, and the words by which numbers are given for its sizes.
#[derive(Debug, Drop)]
pub struct ProgramFile<'a> {
    pub name: &'a str,
    /// The words in the order of the command line, that of a sweep behind all others.
    pub sizes: Vec<SizeWord<'a>>,
}

/// One call of the program.
#[derive(Debug, Drop)]
pub enum Request<'a> {
    /// For the version.
    Version,
    /// For what there is to say of a subject.
    Explanation(Subject),
    /// A program is checked.
    Check(ProgramFile<'a>),
    /// The text of the language that a text stands for is written, whether or not that is a program.
    Expand(ProgramFile<'a>),
    /// The texts of files, which are read by the grammar alone, are laid out anew.
    Arrange(ArrangeWords<'a>),
    /// The code of a program is shown.
    Plan(ProgramFile<'a>),
    /// The code of a program is written as a program in C over MPI.
    Export(ProgramFile<'a>),
    /// The code of a program is written as a program in C for one memory.
    PlainC(ProgramFile<'a>),
    /// A program is run by its definition, and of memory some declarations are shown.
    Meaning {
        file: ProgramFile<'a>,
        words: MeaningWords<'a>,
        shown: Choice<'a>,
    },
    /// What its run by its definition costs is counted.
    Cost {
        file: ProgramFile<'a>,
        words: MeaningWords<'a>,
        costs: CostWords,
    },
    /// Its run by its definition is told statement by statement.
    Steps {
        file: ProgramFile<'a>,
        words: MeaningWords<'a>,
        steps: StepWords<'a>,
    },
    /// It is run by its definition under each of the rules, on these cells and for at most so many statements.
    Rules {
        file: ProgramFile<'a>,
        opening: Opening<'a>,
        bound: u32,
    },
    /// It is run by workers, and of memory some declarations are shown.
    Run {
        file: ProgramFile<'a>,
        words: RunWords<'a>,
        shown: Choice<'a>,
    },
    /// The exchanges of that run are told.
    Trace {
        file: ProgramFile<'a>,
        words: RunWords<'a>,
        trace: TraceWords,
    },
    /// What the run by its definition costs is counted at each of some sizes.
    Sweep {
        file: ProgramFile<'a>,
        words: SweepWords<'a>,
    },
    /// A program is run by its definition on every input of a scope that counts, or on each that is drawn and counts, each time for at most
    /// so many statements; and where a file is named for it, the first input that is told is written there.
    Exploration {
        file: ProgramFile<'a>,
        specification: SpecificationFiles<'a>,
        scope: ScopeWords,
        bound: u32,
        witness: Option<&'a str>,
    },
    /// A program is run once for all inputs of a scope, for at most so many statements.
    Always {
        file: ProgramFile<'a>,
        words: AlwaysWords,
        bound: u32,
    },
    /// Two programs are run by their definitions on the same inputs.
    Pair(PairWords<'a>),
    /// Programs are run by their definitions on the same inputs as a first one, and are graded by it.
    Grade(GradeWords<'a>),
    /// A listing is run by workers, and of memory some declarations are shown.
    Listing {
        file: &'a str,
        words: RunWords<'a>,
        shown: Choice<'a>,
    },
    /// A listing is written as a program in C.
    ListingInC {
        file: &'a str,
    },
}
