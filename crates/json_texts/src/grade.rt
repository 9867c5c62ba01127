//! What is found of programs that are graded by a first one.

ghost use Rattle.std.specs.Prelude.{◌≡◌, ◌∷◌, ◌++◌, [], IfOk, OnOk, string_bytes};
ghost use Rattle.serde_json.specs.View.{view};
ghost use Rattle.comparing.specs.Found.{found_is};
ghost use Rattle.json_texts.specs.Facts.{with_fields};
ghost use Rattle.json_texts.specs.Lines.{Adds};
ghost use Rattle.json_texts.specs.PairFacts.{first_fields};
ghost use Rattle.json_texts.specs.RefusalFacts.{stop_facts};
ghost use Rattle.json_texts.specs.Shown.{shown};
ghost use Rattle.json_texts.specs.GradeFacts as spec;

use crate::line::push_line;
use crate::pair::put_first;
use crate::refusal::put_stop;
use crate::{Object, Value};
use comparing::{Comparison, Score};
use pram_trees::{Layout, Rule};
use program_texts::Stop;
use std::alloc::{AllocError, Global};

/// What a program gets that is graded: whether it passes, on how many of the inputs that count it is right, the rule of its text, how many
/// processors it declares, and the most that it may declare, where that is limited.
#[derive(Clone, Copy)]
pub struct Marks {
    pub passes: bool,
    pub correct: u64,
    pub rule: Rule,
    pub procs: u32,
    pub most_procs: Option<u64>,
}

// The most processors, where there is a limit.
fn put_most(object: &mut Object, most: Option<u64>) -> Result<(), AllocError>
    ensures { OnOk result (shown object.new ≡ with_fields (spec.most_fields most) (shown object.old)) }
{
    match most {
        None => Ok(()),
        Some(most) => object.put_large("procs_at_most", u128::from(most)),
    }
}

fn put_marks(object: &mut Object, marks: Marks) -> Result<(), AllocError>
    ensures { OnOk result (shown object.new ≡ with_fields (spec.marks_fields marks) (shown object.old)) }
{
    object.put("passes", Value::from(marks.passes))?;
    object.put_large("correct", u128::from(marks.correct))?;
    object.put_word("rule", marks.rule.word())?;
    object.put_count("procs", u64::from(marks.procs))?;
    put_most(object, marks.most_procs)
}

fn put_score(object: &mut Object, score: Score) -> Result<(), AllocError>
    ensures { OnOk result (shown object.new ≡ with_fields (spec.score_fields score) (shown object.old)) }
{
    object.put_large("faulted", u128::from(score.faulted))?;
    object.put_large("go_on", u128::from(score.going_on))?;
    object.put_large("above", u128::from(score.above))?;
    object.put_large("time", u128::from(score.most_time))?;
    object.put_large("work", u128::from(score.most_work))
}

// How it does, and the first input on which it differs.
fn put_tried(
    alloc: Global,
    object: &mut Object,
    first: &Layout,
    second: &Layout,
    comparison: &Comparison,
) -> Result<(), AllocError>
    ensures { OnOk result (shown object.new ≡ with_fields (spec.score_fields comparison.now.score
        ++ first_fields first.now second.now (found_is comparison.now).told) (shown object.old)) }
{
    put_score(object, comparison.score)?;
    put_first(alloc, object, first, second, &comparison.told)
}

// That behind its marks.
fn put_found(
    alloc: Global,
    object: &mut Object,
    marks: Marks,
    first: &Layout,
    second: &Layout,
    comparison: &Comparison,
) -> Result<(), AllocError>
    ensures { OnOk result (shown object.new ≡ with_fields (spec.marks_fields marks ++ (spec.score_fields comparison.now.score
        ++ first_fields first.now second.now (found_is comparison.now).told)) (shown object.old)) }
{
    put_marks(object, marks)?;
    put_tried(alloc, object, first, second, comparison)
}

fn graded_value(
    alloc: Global,
    file: &str,
    marks: Marks,
    first: &Layout,
    second: &Layout,
    comparison: &Comparison,
) -> Result<Value, AllocError>
    ensures { IfOk result (λ v. view v ≡ spec.graded_facts file.now marks first.now second.now (found_is comparison.now)) }
{
    let mut object = Object::new(alloc);
    object.put_told("file", file.as_bytes())?;
    object.put_large("counting", u128::from(comparison.counting))?;
    put_found(alloc, &mut object, marks, first, second, comparison)?;
    Ok(object.into_value())
}

/// Puts a program that is graded behind a text, on a line, as
/// `{"above":0,"correct":4,"counting":4,"faulted":0,"file":"b.pram","go_on":0,"passes":true,"procs":2,"rule":"erew","time":2,"work":2}`.
/// It has `procs_at_most` where processors are limited, and the members of the first input on which it differs, as a comparison tells them,
/// where there is one. The layouts are the shared declarations of the first program and of this one.
pub fn push_graded(
    alloc: Global,
    text: &mut String,
    file: &str,
    marks: Marks,
    first: &Layout,
    second: &Layout,
    comparison: &Comparison,
) -> Result<(), AllocError>
    // The line added is exactly the facts of a program that is graded, and read as JSON it is these facts again.
    ensures json { OnOk result (Adds (spec.graded_facts file.now marks first.now second.now (found_is comparison.now) ∷ [])
        (string_bytes text.old) (string_bytes text.new)) }
{
    let facts = graded_value(alloc, file, marks, first, second, comparison)?;
    push_line(alloc, text, &facts)
}

fn refusal_value(alloc: Global, source: &[u8], stop: &Stop<'_>) -> Result<Value, AllocError>
    ensures { IfOk result (λ v. view v ≡ stop_facts source.now stop.now) }
{
    let mut object = Object::new(alloc);
    put_stop(&mut object, source, stop)?;
    Ok(object.into_value())
}

fn ungraded_value(
    alloc: Global,
    file: &str,
    source: &[u8],
    stop: &Stop<'_>,
) -> Result<Value, AllocError>
    ensures { IfOk result (λ v. view v ≡ spec.ungraded_facts file.now source.now stop.now) }
{
    let refusal = refusal_value(alloc, source, stop)?;
    let mut object = Object::new(alloc);
    object.put_told("file", file.as_bytes())?;
    object.put("passes", Value::from(false))?;
    object.put("refusal", refusal)?;
    Ok(object.into_value())
}

/// Puts a program that is refused behind a text, on a line, as
/// `{"file":"b.pram","passes":false,"refusal":{"column":37,"line":1,"name":"UnknownName","offset":36,"refused":"E6"}}`. The text that was
/// refused is this one; where the refusal is about no text it makes no difference.
pub fn push_ungraded(
    alloc: Global,
    text: &mut String,
    file: &str,
    source: &[u8],
    stop: &Stop<'_>,
) -> Result<(), AllocError>
    // The line added is exactly that the program doesn't pass, and its refusal; read as JSON it is these facts again.
    ensures json { OnOk result (Adds (spec.ungraded_facts file.now source.now stop.now ∷ []) (string_bytes text.old)
        (string_bytes text.new)) }
{
    let facts = ungraded_value(alloc, file, source, stop)?;
    push_line(alloc, text, &facts)
}

fn passing_value(alloc: Global, passing: usize, programs: usize) -> Result<Value, AllocError>
    ensures { IfOk result (λ v. view v ≡ spec.passing_facts passing programs) }
{
    let mut object = Object::new(alloc);
    object.put_count("passing", passing as u64)?;
    object.put_count("programs", programs as u64)?;
    Ok(object.into_value())
}

/// Puts behind a text how many of the programs that are graded pass, on a line: `{"passing":3,"programs":8}`.
pub fn push_passing(
    alloc: Global,
    text: &mut String,
    passing: usize,
    programs: usize,
) -> Result<(), AllocError>
    // The line added is exactly how many pass of how many, and read as JSON it is these facts again.
    ensures json { OnOk result (Adds (spec.passing_facts passing programs ∷ []) (string_bytes text.old) (string_bytes text.new)) }
{
    let facts = passing_value(alloc, passing, programs)?;
    push_line(alloc, text, &facts)
}
