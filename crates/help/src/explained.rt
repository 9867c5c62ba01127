//! What refusals, faults, commands and options are.
pub(crate) mod commands;
pub(crate) mod explanation;
pub(crate) mod faults;
pub(crate) mod grades;
pub(crate) mod names;
pub(crate) mod options;
pub(crate) mod overviews;
pub(crate) mod runs;
pub(crate) mod scopes;
pub(crate) mod subject;
pub(crate) mod texts;
pub(crate) mod workers;
