//! Writes, put together cell by cell.

ghost use Rattle.std.specs.Prelude.{◌≡◌, ◌++◌, [], OnOk, IfOk, MatchOption, length, map, pos};
ghost use Rattle.write_rules.specs.Rule.{written};
ghost use Rattle.pram_meaning.specs.Accesses.{judged, writes_made};
ghost use Rattle.pram_meaning.specs.Judging.{part_is};
ghost use Rattle.pram_meaning.specs.Slates.{kept, groups_of, IsPlace, IsMarked, IsMore, IsGathered};

use crate::access::{Access, Judged, collect_writes};
use crate::part::Part;
use crate::rule::value_after;
use pram_trees::Rule;
use pram_values::Kind;
use std::alloc::{AllocError, Global};
use write_rules::Write;

// The writes to one cell.
#[derive(Drop)]
struct Group {
    cell: u32,
    writes: Vec<Write>,
}

/// The writes of a statement, cell by cell: a group for each cell that is written, and for each cell
/// the place of its group. A place counts only if the group there is that of the cell, so places
/// are never wiped, and a statement takes time for its own writes alone.
#[derive(Drop)]
pub struct Slate {
    places: Vec<usize>,
    groups: Vec<Group>,
}

// A cell as a place in memory.
fn index_of(cell: u32) -> usize
    ensures { result ≡ cell }
{
    cell as usize
}

impl Slate {
    /// A slate without writes, with a place for each of so many cells. A cell behind them gets its
    /// place when it is written first.
    pub fn new(alloc: Global, cells: u32) -> Result<Slate, AllocError>
        ensures { IfOk result (IsGathered []) }
    {
        let places = vec![in alloc; 0; index_of(cells)]?;
        Ok(Slate {
            places,
            groups: Vec::new(alloc),
        })
    }

    // The place of the group of a cell, if it has one.
    fn find(&self, cell: u32) -> Option<usize>
        ensures { MatchOption result (kept self.now cell ≡ []) (λ place. IsPlace self.now cell place) }
    {
        let place = *self.places.get(index_of(cell))?;
        let group = self.groups.get(place)?;
        if group.cell == cell {
            Some(place)
        } else {
            None
        }
    }

    // A cell gets the place behind all groups.
    fn mark(&mut self, cell: u32) -> Result<(), AllocError>
        ensures places { OnOk result (IsMarked cell (length self.old.groups.items) self.old.places.items self.new.places.items) }
        ensures groups { self.new.groups ≡ self.old.groups }
    {
        let end = self.groups.len();
        let place = index_of(cell);
        if self.places.len() <= place {
            self.places.resize(place + 1, end)?;
        }
        self.places[place] = end;
        Ok(())
    }

    // A group of one write.
    fn open(&mut self, alloc: Global, access: &Access) -> Result<(), AllocError>
        requires { kept self.old access.now.cell ≡ [] }
        ensures { OnOk result (IsMore access.now.cell access.now.write self.old self.new) }
    {
        self.mark(access.cell)?;
        let mut writes = Vec::with_capacity(alloc, 1)?;
        writes.push(access.write)?;
        self.groups.push(Group {
            cell: access.cell,
            writes,
        })?;
        Ok(())
    }

    // One more write of a group.
    #[tactic(auto, using(crate::proofs::Groups::group_grows))]
    fn extend(&mut self, place: usize, access: &Access) -> Result<(), AllocError>
        requires { IsPlace self.old access.now.cell place }
        ensures { OnOk result (IsMore access.now.cell access.now.write self.old self.new) }
    {
        if let Some(group) = self.groups.get_mut(place) {
            group.writes.push(access.write)?;
        }
        Ok(())
    }

    // One more write.
    fn add(&mut self, alloc: Global, access: &Access) -> Result<(), AllocError>
        ensures { OnOk result (IsMore access.now.cell access.now.write self.old self.new) }
    {
        match self.find(access.cell) {
            Some(place) => self.extend(place, access),
            None => self.open(alloc, access),
        }
    }

    // The writes of all accesses.
    fn gather(&mut self, alloc: Global, all: &[Access]) -> Result<(), AllocError>
        ensures { OnOk result (IsGathered all.now self.new) }
    {
        self.groups.clear();
        for access in all {
            self.add(alloc, access)?;
        }
        Ok(())
    }

    // What the rule says to each group.
    fn settle(&self, alloc: Global, rule: Rule) -> Result<Vec<Result<i64, Kind>>, AllocError>
        ensures { IfOk result (λ verdicts. verdicts.items ≡ map (λ g. written rule (pos 0) g.writes) (groups_of self.now)) }
    {
        let mut verdicts = Vec::new(alloc);
        for group in &self.groups {
            verdicts.push(value_after(rule, 0, group.writes.as_slice()))?;
        }
        Ok(verdicts)
    }

    // What the rule says to the writes to a cell.
    fn verdict_on(&self, verdicts: &[Result<i64, Kind>], cell: u32) -> Result<i64, Kind>
        ensures { (rule : Rule) → verdicts.now ≡ map (λ g. written rule (pos 0) g.writes) (groups_of self.now) →
            result ≡ written rule (pos 0) (kept self.now cell) }
    {
        match self.find(cell) {
            Some(place) => match verdicts.get(place) {
                Some(verdict) => *verdict,
                None => Ok(0),
            },
            None => Ok(0),
        }
    }

    /// What a rule says to each access, in their order. What the slate held doesn't matter.
    pub fn judge(
        &mut self,
        alloc: Global,
        rule: Rule,
        all: &[Access],
    ) -> Result<Vec<Judged>, AllocError>
        ensures { IfOk result (λ said. said.items ≡ judged rule all.now) }
    {
        self.gather(alloc, all)?;
        let verdicts = self.settle(alloc, rule)?;
        let mut said = Vec::new(alloc);
        for access in all {
            let verdict = self.verdict_on(&verdicts, access.cell);
            said.push(Judged {
                access: *access,
                verdict,
            })?;
        }
        Ok(said)
    }

    /// What a rule says to each write of a statement.
    pub fn judge_writes(
        &mut self,
        alloc: Global,
        rule: Rule,
        parts: &[Part],
    ) -> Result<Vec<Judged>, AllocError>
        ensures { IfOk result (λ said. said.items ≡ judged rule (writes_made (map part_is parts.now))) }
    {
        let writes = collect_writes(alloc, parts)?;
        self.judge(alloc, rule, &writes)
    }
}
