//! Which programs say on which inputs a program is tried, and whether its results are right.

use crate::request::ProgramFile;

/// The files of the programs by which a program is tried.
#[derive(Debug, Drop)]
pub struct SpecificationFiles<'a> {
    /// Of the program that says whether an input counts. Without one all count.
    pub precondition: Option<ProgramFile<'a>>,
    /// Of the program that says whether what a run leaves is right. Without one nothing is asked of it.
    pub postcondition: Option<ProgramFile<'a>>,
}
