//! A program under each rule.

ghost use Rattle.std.specs.Prelude.{◌≡◌, ◌∷◌, [], IfOk, OnOk, map, string_bytes};
ghost use Rattle.serde_json.specs.View.{view};
ghost use Rattle.json_texts.specs.Facts.{with_fields};
ghost use Rattle.json_texts.specs.Lines.{IsJson};
ghost use Rattle.json_texts.specs.Shown.{shown};
ghost use Rattle.comparing.specs.Compared.{rules as all_rules};
ghost use Rattle.json_texts.specs.RuleFacts as spec;

use crate::fault::put_fault;
use crate::{Object, Value, line_of};
use comparing::{Finding, UnderRules};
use pram_trees::{Layout, Rule};
use std::alloc::{AllocError, Global};

/// The rules, in the order in which they are compared.
const RULES: [Rule; 5] = [
    Rule::Erew,
    Rule::Crew,
    Rule::Common,
    Rule::Priority,
    Rule::Sum,
];

fn put_end(object: &mut Object, end: &str) -> Result<(), AllocError>
    ensures { OnOk result (shown object.new ≡ with_fields (spec.end_fields end.now) (shown object.old)) }
{
    object.put_word("outcome", "ended")?;
    object.put_word("end", end)
}

fn put_finding(
    alloc: Global,
    object: &mut Object,
    layout: &Layout,
    finding: Finding,
) -> Result<(), AllocError>
    ensures { OnOk result (shown object.new ≡ with_fields (spec.finding_fields layout.now finding) (shown object.old)) }
{
    match finding {
        Finding::Same => put_end(object, "same"),
        Finding::Other => put_end(object, "other"),
        Finding::Faulted(fault) => {
            object.put_word("outcome", "fault")?;
            put_fault(alloc, object, layout, &fault)
        }
        Finding::GoesOn => object.put_word("outcome", "goes on"),
    }
}

fn put_declared(object: &mut Object, declared: bool, finding: Finding) -> Result<(), AllocError>
    ensures { OnOk result (shown object.new ≡ with_fields (spec.declared_fields declared finding) (shown object.old)) }
{
    match (declared, finding) {
        (true, Finding::Same) => object.put("declared", Value::from(true)),
        (true, Finding::Other) => Ok(()),
        (true, Finding::Faulted(_)) => Ok(()),
        (true, Finding::GoesOn) => Ok(()),
        (false, _) => Ok(()),
    }
}

// What is found under a rule.
fn rule_facts(alloc: Global, comparison: &UnderRules, rule: Rule) -> Result<Value, AllocError>
    ensures { IfOk result (λ v. view v ≡ spec.rule_facts comparison.now rule) }
{
    let mut object = Object::new(alloc);
    object.put_word("rule", rule.word())?;
    let finding = comparison.of(rule);
    put_finding(alloc, &mut object, &comparison.layout, finding)?;
    put_declared(&mut object, comparison.declares(rule), finding)?;
    Ok(object.into_value())
}

fn findings(alloc: Global, comparison: &UnderRules) -> Result<Vec<Value>, AllocError>
    ensures { IfOk result (λ list. map view list.items ≡ map (spec.rule_facts comparison.now) all_rules) }
{
    let mut list = Vec::new(alloc);
    for rule in RULES {
        list.push(rule_facts(alloc, comparison, rule)?)?;
    }
    Ok(list)
}

fn comparison_value(alloc: Global, comparison: &UnderRules) -> Result<Value, AllocError>
    ensures { IfOk result (λ v. view v ≡ spec.comparison_facts comparison.now) }
{
    let list = findings(alloc, comparison)?;
    let mut object = Object::new(alloc);
    object.put_list("rules", list)?;
    Ok(object.into_value())
}

/// How a program comes out under each rule, on a line: `{"rules":[{"end":"same","outcome":"ended","rule":"erew"}, ..]}`.
pub fn json_comparison(alloc: Global, comparison: &UnderRules) -> Result<String, AllocError>
    // The line is exactly the facts of the program under each rule, and read as JSON it is these facts again.
    ensures json { IfOk result (λ text. IsJson (spec.comparison_facts comparison.now ∷ []) (string_bytes text)) }
{
    let facts = comparison_value(alloc, comparison)?;
    line_of(alloc, &facts)
}
