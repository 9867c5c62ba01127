//! How one input more is noted.

ghost use Rattle.std.specs.Prelude.{◌≡◌, ◌+◌, ◌<◌, ◌^◌, OnOk, map};
ghost use Rattle.comparing.specs.Found.{added, differing_is, found_is, nothing, skipped, with_more};

use crate::comparison::{Comparison, FoundDifference};
use crate::difference::Difference;
use crate::score::Score;
use crate::trial::Trial;
use std::alloc::{AllocError, Global};

// Keeps an input and what differs on it behind earlier ones, where fewer than so many are kept.
fn keep(
    alloc: Global,
    told: &mut Vec<FoundDifference>,
    most: usize,
    difference: Difference,
    input: &[i64],
) -> Result<(), AllocError>
    ensures { OnOk result (map differing_is told.new.items
        ≡ with_more most (map differing_is told.old.items) (record { input = input.now; difference = difference })) }
{
    if told.len() >= most {
        return Ok(());
    }
    let mut copy = Vec::new(alloc);
    copy.extend_from_slice(input)?;
    told.push(FoundDifference {
        input: copy,
        difference,
    })?;
    Ok(())
}

impl Comparison {
    /// What is found on no input.
    pub(crate) fn new(alloc: Global) -> Comparison
        ensures { found_is result ≡ nothing }
    {
        Comparison {
            inputs: 0,
            counting: 0,
            same: 0,
            score: Score::new(),
            told: Vec::new(alloc),
        }
    }

    /// Notes an input that doesn't count.
    pub(crate) fn skip(&mut self)
        requires room { self.old.inputs + 1 < 2 ^ 64 }
        ensures { found_is self.new ≡ skipped (found_is self.old) }
    {
        self.inputs += 1;
    }

    /// Notes an input more that counts, and what is found on it; of those on which the programs differ at most so many are told.
    pub(crate) fn add(
        &mut self,
        alloc: Global,
        most: usize,
        trial: Trial,
        input: &[i64],
    ) -> Result<(), AllocError>
        requires room { self.old.inputs + 1 < 2 ^ 64 }
        ensures { OnOk result (found_is self.new ≡ added most trial input.now (found_is self.old)) }
    {
        self.inputs += 1;
        self.counting += 1;
        self.score = self.score.with(&trial);
        match trial.difference {
            None => self.same += 1,
            Some(difference) => keep(alloc, &mut self.told, most, difference, input)?,
        }
        Ok(())
    }
}
