//! Which processors go on behind a test.

ghost use Rattle.std.specs.Prelude.{◌≡◌, ℕ, List, [], ◌∷◌, ℤ, true, false, not, map, IfOk, IfSome, MatchOption};
ghost use Rattle.pram_meaning.specs.Conflict.{Part};
ghost use Rattle.pram_meaning.specs.Together.{those, those_of};
ghost use Rattle.pram_values.specs.Truth.{is_nonzero};
ghost use Rattle.abstract_runs.specs.declared.findings.Findings.{Findings};
ghost use Rattle.abstract_runs.specs.Decided.{ComesOut};
ghost use Rattle.abstract_runs.specs.Given.{AreGiven, IsGiving};
ghost use Rattle.abstract_runs.specs.Rows.{AreActive, ArePartsBy, IsPartBy};

use crate::active::Active;
use crate::decided::{Decided, decide};
use crate::row::Row;
use std::alloc::{AllocError, Global};

// Whether a test that comes out so surely goes that way; none where it goes the other.
fn goes(decided: Decided, wanted: bool) -> Option<bool>
    ensures { (z : ℤ) → ComesOut decided z →
        MatchOption result (is_nonzero z ≡ not wanted) (λ sure. sure ≡ true → is_nonzero z ≡ wanted) }
{
    match decided {
        Decided::Open => Some(false),
        Decided::Yes => { if wanted { Some(true) } else { None } }
        Decided::No => { if wanted { None } else { Some(true) } }
    }
}

// The processor of a row, if its test may come out so.
fn choice(row: &Row, wanted: bool) -> Option<Active>
    ensures chosen { (faults : Findings) (x : Part) → IsPartBy faults row.now x → IsGiving x.attempt →
        MatchOption result (those_of wanted x ≡ []) (λ one. AreActive (one ∷ []) (those_of wanted x)) }
    ensures unsure { IfSome result (λ one. row.now.is_sure ≡ false → one.is_sure ≡ false) }
{
    let Some(effect) = row.effect else {
        return None;
    };
    let Some(sure) = goes(decide(effect.value), wanted) else {
        return None;
    };
    Some(Active {
        member: row.member,
        is_sure: row.is_sure && sure,
    })
}

/// Those whose test may come out so.
pub fn select(alloc: Global, wanted: bool, rows: &[Row]) -> Result<Vec<Active>, AllocError>
    // Where each attempt gives something, the members whose test comes out so are such a set.
    ensures chosen { IfOk result (λ chosen. (faults : Findings) (xs : List Part) → ArePartsBy faults rows.now xs → AreGiven xs →
        AreActive chosen.items (those wanted xs)) }
{
    let mut chosen = Vec::new(alloc);
    for k in 0..rows.len() {
        let Some(one) = choice(&rows[k], wanted) else {
            continue;
        };
        chosen.push(one)?;
    }
    Ok(chosen)
}

/// The same members, none of them sure.
pub fn unsure(alloc: Global, active: &[Active]) -> Result<Vec<Active>, AllocError>
    // Each set of members that was possible is possible.
    ensures same { IfOk result (λ some. (vs : List ℕ) → AreActive active.now vs → AreActive some.items vs) }
    // So is the set of those of its members whose test is true.
    ensures fewer { IfOk result (λ some. (vs : List ℕ) (xs : List Part) → AreActive some.items vs → map (λ x. x.member) xs ≡ vs →
        AreActive some.items (those true xs)) }
{
    let mut some = Vec::with_capacity(alloc, active.len())?;
    for k in 0..active.len() {
        some.push(Active {
            member: active[k].member,
            is_sure: false,
        })?;
    }
    Ok(some)
}
