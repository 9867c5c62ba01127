//! Two programs on the same inputs.

use crate::input_words::InputWords;
use crate::request::ProgramFile;
use memory_texts::Choice;
use pram_model::Rule;

/// Two programs that are run on the same inputs, and what of their runs is compared.
#[derive(Debug, Drop)]
pub struct PairWords<'a> {
    pub first: ProgramFile<'a>,
    pub second: ProgramFile<'a>,
    /// Of the program that says whether an input counts. Without one all count.
    pub precondition: Option<ProgramFile<'a>>,
    pub inputs: InputWords<'a>,
    /// What of runs that end is compared: the output and what both programs declare, or of these what has a name among these, of which
    /// `output` is that of the output.
    pub only: Choice<'a>,
    /// The most statements that a run of the second program may take to its end: a number, or an expression of its sizes.
    pub most_time: Option<&'a str>,
    /// The most work that it may take.
    pub most_work: Option<&'a str>,
    /// The most processors that it may declare.
    pub most_procs: Option<&'a str>,
    /// The rule under which the second program is run. Without one it is that of its text.
    pub under: Option<Rule>,
    /// Whether the second program is graded by the first. Then all that the first declares is compared, unless `only` names what is; the
    /// inputs that are drawn have values for the first program's cells; and a run of the second stops where its limit of time is passed.
    pub is_graded: bool,
    /// The most statements that are run.
    pub bound: u32,
}

/// Programs that are graded by a first one: that, and for each of them the words by which the two are compared.
#[derive(Debug, Drop)]
pub struct GradeWords<'a> {
    pub reference: ProgramFile<'a>,
    pub pairs: Vec<PairWords<'a>>,
}
