//! What was found, told on standard output.
ghost use Rattle.command_facts.specs.Statuses.{status_of_found};
ghost use Rattle.command_facts.specs.Written.{WroteSome};
ghost use Rattle.command_text.specs.Texts as spec;

use crate::grading::write_grade;
use crate::sweeping::write_swept;
use crate::tracing::write_found_trace;
use crate::writing::{
    write_accepted, write_costs, write_exploration, write_export, write_outcome, write_pair,
    write_plain_c, write_plan, write_rules, write_subject, write_survey, write_text, write_version,
};
use command_facts::{Settled, status_of};
use program_texts::{Status, Stop};
use text_out::Out;

/// Writes what was found, which takes no memory.
pub(crate) fn write_found<'a, O: Out>(found: &Settled<'_>, out: &mut O) -> Result<Status, Stop<'a>>
    ensures written { WroteSome (status_of_found found.now) ⊥ (spec.IsTextOf found.now)
        (O.Out.state out.old) (O.Out.state out.new) result }
{
    match found {
        Settled::Version => write_version(out),
        Settled::Explanation(subject) => write_subject(out, *subject),
        Settled::Accepted(loaded) => write_accepted(out, &loaded.program),
        Settled::Expanded(source) => write_text(out, source.text()),
        Settled::Planned(code) => write_plan(out, code.code()),
        Settled::Exported(code) => write_export(out, code.code()),
        Settled::ExportedAlone(plan) => write_plain_c(out, plan),
        Settled::Compared(comparison) => write_rules(out, comparison),
        Settled::Run(run, shown) => {
            write_outcome(out, run.loaded.program.layout(), &run.outcome, *shown)
        }
        Settled::Costed(run, words, cost) => {
            write_costs(out, run.loaded.program.layout(), &run.outcome, cost, *words)
        }
        Settled::Traced(run, words, exchanges) => write_found_trace(out, run, *words, exchanges),
        Settled::Swept(swept) => write_swept(out, swept, status_of(found)),
        Settled::Explored(explored) => write_exploration(out, explored, status_of(found)),
        Settled::Surveyed(survey) => write_survey(out, survey, status_of(found)),
        Settled::Paired(pair) => write_pair(out, pair, status_of(found)),
        Settled::Graded(graded) => write_grade(out, graded, status_of(found)),
        Settled::Executed(run) => {
            write_outcome(out, run.code.code().layout(), &run.outcome, run.shown)
        }
    }
}
