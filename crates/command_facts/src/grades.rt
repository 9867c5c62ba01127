//! Which of the programs that are graded pass.

ghost use Rattle.std.specs.Prelude.{◌≡◌};
ghost use Rattle.comparing.specs.Found.{found_is};
ghost use Rattle.command_facts.specs.Grades as spec;

use crate::found::{FoundPair, GradeRow};

// Whether so many are at most as many as there may be.
fn is_at_most(count: u64, most: Option<u64>) -> bool
    ensures { result ≡ spec.is_at_most count most }
{
    match most {
        None => true,
        Some(most) => count <= most,
    }
}

impl FoundPair {
    /// Whether the second program declares no more processors than it may.
    pub fn keeps_procs(&self) -> bool
        // It declares at most as many processors as are allowed, where that is limited.
        ensures { result ≡ spec.keeps_procs self.now }
    {
        is_at_most(u64::from(self.second.procs()), self.most_procs)
    }

    /// On how many inputs that count the second program is right within its limits: on none where it declares too many processors.
    pub fn correct(&self) -> u64
        // They are those on which nothing differs and it ends within its limits, and none where it declares too many processors.
        ensures { result ≡ spec.correct_of self.now }
    {
        if self.keeps_procs() {
            self.comparison.score.correct
        } else {
            0
        }
    }

    /// Whether the second program passes.
    pub fn passes(&self) -> bool
        // It passes where some input counts, and it is right within its limits on each that does.
        ensures { result ≡ spec.pair_passes self.now }
    {
        self.comparison.counting > 0 && self.correct() == self.comparison.counting
    }
}

impl<'a> GradeRow<'a> {
    /// Whether the program passes. One that is refused doesn't.
    pub fn passes(&self) -> bool
        // It passes where it is accepted and passes beside the first program.
        ensures { result ≡ spec.row_passes self.now }
    {
        match &self.graded {
            Ok(pair) => pair.passes(),
            Err(_) => false,
        }
    }
}

/// How many of the programs pass.
pub fn passing(rows: &[GradeRow<'_>]) -> usize
    // It is the number of rows whose program passes.
    ensures { result ≡ spec.passing rows.now }
{
    let mut count = 0;
    for row in rows {
        if row.passes() {
            count += 1;
        }
    }
    count
}
