//! What holds of every page.

ghost use Rattle.std.specs.Prelude.{ℕ, List, ◌<◌, ◌≤◌, ◌^◌, length};
ghost use Rattle.pages.specs.Cut.{IsCut};
ghost use Rattle.pages.specs.Facts.{HasNoTag, embedded};
ghost use Rattle.pages.specs.Page.{most_bytes, page};
ghost use Rattle.pages.specs.Stand.{CutFactsAreRead, FactsAreRead, OutcomeIsRead};

/// A page has at most 2 MiB.
pub fn pages_are_small()
    // A page has at most 2 MiB.
    ensures { (facts state : List ℕ) (front back : ℕ) → length facts < 2 ^ 64 → IsCut facts front back →
        length (page facts state front back) ≤ most_bytes }
{}

/// Facts never end the script that they stand in: no `<` is in them.
pub fn facts_have_no_tag()
    // Facts never end the script that they stand in, as no `<` is in them.
    ensures { (facts : List ℕ) → HasNoTag (embedded facts) }
{}

/// What stands in the page is read as the list of the first facts and the last ones, with the state between them, and says which are left
/// out.
pub fn cut_facts_are_read()
    // Of facts without floats, nested at most 126 deep, those that stand in the page are read as JSON as these, with
    // the state between and which are left out.
    ensures { CutFactsAreRead }
{}

/// Where all lines of facts have room, none is left out.
pub fn facts_are_read()
    // Facts without floats, nested at most 126 deep, that all have room are read as JSON as the list of all, with none
    // left out.
    ensures { FactsAreRead }
{}

/// The line of the outcome, which is the last, stands in the page if it has room at all.
pub fn outcome_is_read()
    // The last facts, those of the outcome, are among those that stand in the page if they have room at all.
    ensures { OutcomeIsRead }
{}
