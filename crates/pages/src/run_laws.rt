//! What holds of every page of a run.

ghost use Rattle.pages.specs.Read.{PageOfRunIsRead};

/// Read as JSON, what stands in the page of a run are the facts of this run: the first and the last ones, with the state between them, and
/// which are left out; all, where all have room; and its outcome, if that has room.
pub fn page_of_run_is_read()
    // Read as JSON, such a page is the run's first and last facts, with the state between and which are left out; all,
    // and the outcome, where they have room.
    ensures { PageOfRunIsRead }
{}
