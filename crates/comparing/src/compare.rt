//! A program under each of the five rules.

ghost use Rattle.std.specs.Prelude.{◌≡◌, ◌↔◌, ◌<◌, ◌≤◌, IfOk, length};
ghost use Rattle.pram_model.specs.Layout.{total_size};
ghost use Rattle.pram_check.specs.OtherRule.{under};
ghost use Rattle.write_rules.specs.Verdict.{verdict_of};
ghost use Rattle.pram_meaning.specs.Outcome.{IsOutcome};
ghost use Rattle.pram_meaning.specs.Values.{AreValues};
ghost use Rattle.comparing.specs.Compared.{IsComparison};
ghost use Rattle.comparing.specs.Judged.{IsFoundUnder};
ghost use Rattle.comparing.specs.RulesTold.{IsKnown, ahead};

use crate::finding::Finding;
use crate::first_end::FirstEnd;
use crate::input::have_64_bits;
use crate::rules::UnderRules;
use observing::{Watch, observe_watched};
use pram_check::Program;
use pram_meaning::MeaningRefusal;
use pram_meaning::silent::Silent;
use pram_trees::Rule;
use std::alloc::Global;
use write_rules::Outcome;

// What is the same under each rule.
#[derive(Clone, Copy)]
struct Given<'g> {
    alloc: Global,
    input: &'g [i64],
    bound: u32,
}

// The outcome under that rule, and the program under it.
fn run_under<V: Watch>(
    given: Given<'_>,
    program: Program,
    rule: Rule,
    watch: &mut V,
) -> Result<(Program, Outcome), MeaningRefusal>
    ensures program { IfOk result (λ found. found.0 ≡ under rule program) }
    ensures outcome { IfOk result (λ found. IsOutcome (under rule program) given.entry.input.now given.entry.bound (verdict_of found.1)) }
    ensures fits { IfOk result (λ found. length given.entry.input.now ≤ total_size program.layout) }
    ensures too_long { (result ≡ Err MeaningRefusal.InputTooLong) ↔ (total_size program.layout < length given.entry.input.now) }
{
    let program = program.under(rule);
    let (_, done) = observe_watched(
        given.alloc,
        &program,
        given.input,
        given.bound,
        Silent {},
        watch,
    );
    let outcome = done?;
    Ok((program, outcome))
}

// What is found under that rule, and the program under it.
fn find_under<V: Watch>(
    given: Given<'_>,
    program: Program,
    rule: Rule,
    first: &mut FirstEnd,
    watch: &mut V,
) -> Result<(Program, Finding), MeaningRefusal>
    ensures program { IfOk result (λ found. found.0 ≡ under rule program) }
    ensures found { IfOk result (λ found. IsFoundUnder rule program given.entry.input.now given.entry.bound first.old found.1 first.new) }
    ensures fits { IfOk result (λ found. length given.entry.input.now ≤ total_size program.layout) }
    ensures too_long { (result ≡ Err MeaningRefusal.InputTooLong) ↔ (total_size program.layout < length given.entry.input.now) }
{
    let (program, outcome) = run_under(given, program, rule, watch)?;
    let finding = first.judge(outcome);
    Ok((program, finding))
}

// What is found under that rule, by a run only where what is known is a conflict.
fn find<V: Watch>(
    given: Given<'_>,
    program: Program,
    rule: Rule,
    known: Finding,
    first: &mut FirstEnd,
    watch: &mut V,
) -> Result<(Program, Finding), MeaningRefusal>
    requires fits { length given.input.now ≤ total_size program.layout }
    requires values { AreValues given.input.now }
    requires known { IsKnown rule program given.input.now given.bound first.old known }
    ensures program { IfOk result (λ found. found.0 ≡ under rule program) }
    ensures found { IfOk result (λ found. IsFoundUnder rule program given.entry.input.now given.entry.bound first.old found.1 first.new) }
    ensures fitting { result ≡ Err MeaningRefusal.InputTooLong → ⊥ }
{
    program.bounded();
    if known.is_conflict() {
        find_under(given, program, rule, first, watch)
    } else {
        Ok((program.under(rule), known))
    }
}

// Where the program declares sum, its end has to come before that under common, which may be another. What is known of sum from there
// on: what is found under it, and else what is found under crew.
fn find_ahead<V: Watch>(
    given: Given<'_>,
    program: Program,
    declared: Rule,
    crew: Finding,
    first: &mut FirstEnd,
    watch: &mut V,
) -> Result<(Program, Finding), MeaningRefusal>
    requires fits { length given.input.now ≤ total_size program.layout }
    requires values { AreValues given.input.now }
    requires crew { IsFoundUnder Rule.Crew program given.input.now given.bound first.old crew first.old }
    ensures program { IfOk result (λ found. found.0 ≡ under (ahead declared) program) }
    ensures found { IfOk result (λ found.
        IsFoundUnder (ahead declared) program given.entry.input.now given.entry.bound first.old found.1 first.new) }
    ensures fitting { result ≡ Err MeaningRefusal.InputTooLong → ⊥ }
{
    match declared {
        Rule::Erew | Rule::Crew | Rule::Common | Rule::Priority => {
            Ok((program.under(Rule::Crew), crew))
        }
        Rule::Sum => find(given, program, Rule::Sum, crew, first, watch),
    }
}

/// How the program comes out under each of the five rules on the input within `bound` statements, and whether as under the rule that it
/// declares, where it ends under that, and else as under the first, in the order erew, crew, common, priority, sum, under which it ends.
/// The first cells get the values of the input. E11 where there are more values than cells; E16 only where memory was refused.
/// The program is run under a rule only where no run under a stricter one tells: once, where it comes to no conflict under erew. The watch
/// is told how far each run is.
pub fn compare_rules<V: Watch>(
    alloc: Global,
    program: Program,
    input: &[i64],
    bound: u32,
    watch: &mut V,
) -> Result<UnderRules, MeaningRefusal>
    // Each rule's outcome is told, faults with line and place; an end is `same` exactly if output and memory are those
    // of the declared rule's end, or else the first.
    ensures comparison { IfOk result (IsComparison program input.now bound) }
    // The shared declarations are the program's.
    ensures layout { IfOk result (λ c. c.layout ≡ program.layout) }
    // There is a comparison only where the input has at most as many values as there are cells.
    ensures fits { IfOk result (λ c. length input.now ≤ total_size program.layout) }
    // InputTooLong is answered exactly where the input has more values than there are cells.
    ensures too_long { (result ≡ Err MeaningRefusal.InputTooLong) ↔ (total_size program.layout < length input.now) }
{
    let rule = program.rule();
    program.bounded();
    have_64_bits(input);
    let given = Given {
        alloc,
        input,
        bound,
    };
    let mut first = FirstEnd::none();
    let (program, erew) = find_under(given, program, Rule::Erew, &mut first, watch)?;
    let (program, crew) = find(given, program, Rule::Crew, erew, &mut first, watch)?;
    let (program, ahead) = find_ahead(given, program, rule, crew, &mut first, watch)?;
    let (program, common) = find(given, program, Rule::Common, crew, &mut first, watch)?;
    let (program, priority) = find(given, program, Rule::Priority, common, &mut first, watch)?;
    let (program, sum) = find(given, program, Rule::Sum, ahead, &mut first, watch)?;
    Ok(UnderRules {
        layout: program.into_layout(),
        declared: rule,
        erew,
        crew,
        common,
        priority,
        sum,
    })
}
