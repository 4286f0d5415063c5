//! The results of an analysis as text.
ghost use Rattle.std.specs.Prelude.{◌≡◌, ◌++◌, OnOk, IfOk};
ghost use Rattle.std.specs.List.{flat_map, filter};
ghost use Rattle.cs_ast.specs.TypedProgram.{typed_program};
ghost use Rattle.cs_results.specs.declared.finding.Finding.{Finding};
ghost use Rattle.cs_results.specs.declared.result.EntryResult.{EntryResult};
ghost use Rattle.cs_results.specs.Selected as selected;
ghost use Rattle.cs_report_parts.specs.RunLines.{text_of};
ghost use Rattle.cs_report.specs.AnalysisLines.{finding_lines, entry_lines, analysis_text};

use crate::cut::append_cuts;
use crate::finding::append_finding;
use cs_ast::typed::program::Program;
use cs_model::Kind;
use cs_report_parts::{append, function_name};
use cs_results::{EntryResult, Finding, is_selected};
use std::alloc::{AllocError, Global};

/// Returns the text of results, with the reports of these kinds. The program has the files and functions that numbers name.
pub fn text(
    alloc: Global,
    results: &[EntryResult],
    program: &Program,
    kinds: &[Kind],
) -> Result<Vec<u8>, AllocError>
    ensures { IfOk result (λ text.
        text.items ≡ analysis_text (typed_program program.now) kinds.now results.now) }
{
    let mut text = Vec::new(alloc);
    append_results(&mut text, program, kinds, results)?;
    Ok(text)
}

/// Appends the lines of each entry.
fn append_results(
    text: &mut Vec<u8>,
    program: &Program,
    kinds: &[Kind],
    results: &[EntryResult],
) -> Result<(), AllocError>
    ensures { OnOk result (text.new.items ≡ text.old.items ++ flat_map
        (λ (entry : EntryResult). text_of
        (entry_lines (typed_program program.now) kinds.now entry)) results.now) }
{
    for entry in results {
        append_result(text, program, kinds, entry)?;
    }
    Ok(())
}

/// Appends the lines of an entry: its verdict, its reports of these kinds, the budgets that its runs exceed, and its cuts.
fn append_result(
    text: &mut Vec<u8>,
    program: &Program,
    kinds: &[Kind],
    entry: &EntryResult,
) -> Result<(), AllocError>
    ensures { OnOk result (text.new.items ≡ text.old.items
        ++ text_of (entry_lines (typed_program program.now) kinds.now entry.now)) }
{
    append(text, "entry ")?;
    text.extend_from_slice(function_name(program, entry.entry))?;
    append(text, format_args!(" {}\n", entry.verdict.name()))?;
    append_reports(text, program, kinds, &entry.reports)?;
    append_overs(text, program, &entry.overs)?;
    append_cuts(text, &program.files, &entry.cuts)
}

/// Appends the lines of the reports of these kinds.
fn append_reports(
    text: &mut Vec<u8>,
    program: &Program,
    kinds: &[Kind],
    reports: &[Finding],
) -> Result<(), AllocError>
    ensures { OnOk result (text.new.items ≡ text.old.items ++ flat_map
        (λ (f : Finding). text_of (finding_lines (typed_program program.now) f))
        (filter (λ (f : Finding). selected.is_selected kinds.now f.what) reports.now)) }
{
    for report in reports {
        if is_selected(kinds, report.what) {
            append_finding(text, program, report)?;
        }
    }
    Ok(())
}

/// Appends the lines of each met budget.
fn append_overs(text: &mut Vec<u8>, program: &Program, overs: &[Finding]) -> Result<(), AllocError>
    ensures { OnOk result (text.new.items ≡ text.old.items ++ flat_map
        (λ (f : Finding). text_of (finding_lines (typed_program program.now) f))
        overs.now) }
{
    for over in overs {
        append_finding(text, program, over)?;
    }
    Ok(())
}
