//! Findings as text.
ghost use Rattle.std.specs.Prelude.{◌≡◌, ◌++◌, OnOk};
ghost use Rattle.cs_ast.specs.TypedProgram.{typed_program};
ghost use Rattle.cs_report_parts.specs.RunLines.{text_of};
ghost use Rattle.cs_report.specs.AnalysisLines as lines;
ghost use Rattle.cs_report.specs.AnalysisLines.{outcome_text, finding_lines};

use crate::ground::append_grounds;
use cs_ast::typed::program::Program;
use cs_events::{Guess, Outcome};
use cs_names::Name;
use cs_report_parts::{append, append_inputs, append_place, append_steps};
use cs_results::Finding;
use std::alloc::AllocError;

/// Appends the lines of a finding: its outcome, its inputs, its guesses with their grounds, its steps.
pub(crate) fn append_finding(
    text: &mut Vec<u8>,
    program: &Program,
    finding: &Finding,
) -> Result<(), AllocError>
    ensures { OnOk result (text.new.items
        ≡ text.old.items ++ text_of (finding_lines (typed_program program.now) finding.now)) }
{
    append_outcome(text, &program.files, finding.what)?;
    append(
        text,
        format_args!(" {}\n", confidence(&finding.run.guesses)),
    )?;
    append_inputs(text, finding.run.inputs.list())?;
    append_grounds(text, &program.files, &finding.grounds)?;
    append_steps(text, program, &finding.events)
}

/// Appends `report KIND PLACE` or `over BUDGET PLACE`. For a return it appends nothing.
fn append_outcome(text: &mut Vec<u8>, files: &[Name], outcome: Outcome) -> Result<(), AllocError>
    ensures { OnOk result (text.new.items ≡ text.old.items ++ outcome_text files.now outcome) }
{
    match outcome {
        Outcome::Fault(kind, place) => {
            append(text, format_args!("report {} ", kind.name()))?;
            append_place(text, files, place)
        }
        Outcome::Over(budget, place) => {
            append(text, format_args!("over {} ", budget.name()))?;
            append_place(text, files, place)
        }
        Outcome::Done(_) => Ok(()),
    }
}

/// Returns the word for the confidence in a finding, according to the guesses of its run.
fn confidence(guesses: &[Guess]) -> &'static str
    ensures { result.now ≡ lines.confidence guesses.now }
{
    match guesses {
        [] => "confirmed",
        [_, ..] => "assumed",
    }
}
