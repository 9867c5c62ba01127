//! The text of a comparison.

ghost use Rattle.std.specs.Prelude.{◌≡◌, ◌++◌, codes};
ghost use Rattle.text_out.specs.Out.{Writes};
ghost use Rattle.program_texts.specs.Shown.{line};
ghost use Rattle.comparing.specs.RulesText.{comparison_text, declared_text, finding_text, rule_line, told};

use crate::finding::Finding;
use crate::rules::UnderRules;
use pram_trees::{Layout, Rule};
use program_texts::write_fault;
use text_out::{Out, WriteFault};

/// The rules, in the order in which they are compared.
const RULES: [Rule; 5] = [
    Rule::Erew,
    Rule::Crew,
    Rule::Common,
    Rule::Priority,
    Rule::Sum,
];

fn write_finding<W: Out>(out: &mut W, layout: &Layout, finding: Finding) -> Result<(), WriteFault>
    ensures written { Writes (W.Out.state out.old) (W.Out.state out.new) (line (finding_text layout.now finding)) result }
{
    match finding {
        Finding::Same => out.write_all(b"ended same\n"),
        Finding::Other => out.write_all(b"ended other\n"),
        Finding::Faulted(fault) => write_fault(out, layout, &fault),
        Finding::GoesOn => out.write_all(b"goes on\n"),
    }
}

// What is found under the declared rule, which is told where all others are beside it.
fn write_declared<W: Out>(out: &mut W, layout: &Layout, finding: Finding) -> Result<(), WriteFault>
    ensures written { Writes (W.Out.state out.old) (W.Out.state out.new) (line (declared_text layout.now finding)) result }
{
    match finding {
        Finding::Same => out.write_all(b"ended same (declared)\n"),
        Finding::Other => write_finding(out, layout, finding),
        Finding::Faulted(_) => write_finding(out, layout, finding),
        Finding::GoesOn => write_finding(out, layout, finding),
    }
}

fn write_told<W: Out>(
    out: &mut W,
    declared: bool,
    layout: &Layout,
    finding: Finding,
) -> Result<(), WriteFault>
    ensures written { Writes (W.Out.state out.old) (W.Out.state out.new) (line (told declared layout.now finding)) result }
{
    if declared {
        write_declared(out, layout, finding)
    } else {
        write_finding(out, layout, finding)
    }
}

fn write_line<W: Out>(out: &mut W, comparison: &UnderRules, rule: Rule) -> Result<(), WriteFault>
    ensures written { Writes (W.Out.state out.old) (W.Out.state out.new) (rule_line comparison.now rule) result }
{
    out.write_parts(&[rule.word().as_bytes(), b" "])?;
    let declared = comparison.declares(rule);
    write_told(out, declared, &comparison.layout, comparison.of(rule))
}

/// Writes a line for each rule: `erew fault read-conflict a[1] line 4`, `crew ended same`, `priority ended other` or `sum goes on`. Where
/// the program ends under the rule that it declares, the line of that says so: `common ended same (declared)`.
/// The error is that the writer failed (E17).
pub fn show_comparison<W: Out>(comparison: &UnderRules, out: &mut W) -> Result<(), WriteFault>
    // A line for each rule, in the order erew, crew, common, priority, sum, says how the program comes out; all is
    // written, or a beginning before the writer failed.
    ensures written { Writes (W.Out.state out.old) (W.Out.state out.new) (comparison_text comparison.now) result }
{
    for rule in RULES {
        write_line(out, comparison, rule)?;
    }
    Ok(())
}
