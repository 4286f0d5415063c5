//! The results of an analysis in the JSON form.
ghost use Rattle.std.specs.Prelude.{◌≡◌, map, IfOk, codes};
ghost use Rattle.std.specs.List.{filter};
ghost use Rattle.serde_json.specs.View.{view};
ghost use Rattle.cs_ast.specs.TypedProgram.{typed_program};
ghost use Rattle.cs_results.specs.declared.finding.Finding.{Finding};
ghost use Rattle.cs_results.specs.Selected as selected;
ghost use Rattle.cs_report_parts.specs.RunJson.{list};
ghost use Rattle.cs_report.specs.AnalysisJson as form;

use crate::json_finding::{cut_value, finding_value};
use cs_ast::typed::program::Program;
use cs_model::Kind;
use cs_names::Name;
use cs_report_parts::{function_name, text_value};
use cs_results::{Cut, EntryResult, Finding, is_selected};
use serde_json::{Value, json};
use std::alloc::{AllocError, Global};

/// Returns the results as one JSON object on a line, with the reports of these kinds. The program has the files and functions that numbers name.
pub fn json(
    alloc: Global,
    results: &[EntryResult],
    program: &Program,
    kinds: &[Kind],
) -> Result<Vec<u8>, AllocError>
    ensures { IfOk result (λ text.
        text.items ≡ form.analysis_json_text (typed_program program.now) kinds.now results.now) }
{
    let value = analysis_value(alloc, results, program, kinds)?;
    let mut text = value.to_string(alloc)?.into_bytes();
    text.push(b'\n')?;
    Ok(text)
}

/// Returns the object of all results.
fn analysis_value(
    alloc: Global,
    results: &[EntryResult],
    program: &Program,
    kinds: &[Kind],
) -> Result<Value, AllocError>
    ensures { IfOk result (λ value.
        view value ≡ form.analysis_json (typed_program program.now) kinds.now results.now) }
{
    let mut list = Vec::new(alloc);
    for entry in results {
        list.push(entry_value(alloc, program, kinds, entry)?)?;
    }
    let entries = Value::Array(list);
    json!(in alloc; {"entries": entries})
}

/// Returns the object of an entry: its cuts, its name, the budgets that its runs exceed, its reports of these kinds, and its verdict.
fn entry_value(
    alloc: Global,
    program: &Program,
    kinds: &[Kind],
    entry: &EntryResult,
) -> Result<Value, AllocError>
    ensures { IfOk result (λ value.
        view value ≡ form.entry_json (typed_program program.now) kinds.now entry.now) }
{
    let cuts = cuts_value(alloc, &program.files, &entry.cuts)?;
    let name = text_value(alloc, function_name(program, entry.entry))?;
    let overs = overs_value(alloc, program, &entry.overs)?;
    let reports = reports_value(alloc, program, kinds, &entry.reports)?;
    object_of(alloc, cuts, name, overs, reports, entry.verdict.name())
}

/// Returns the object of an entry with these parts.
fn object_of(
    alloc: Global,
    cuts: Value,
    name: Value,
    overs: Value,
    reports: Value,
    verdict: &str,
) -> Result<Value, AllocError>
    ensures { IfOk result (λ value. view value
        ≡ form.entry_of (view cuts) (view name) (view overs) (view reports) verdict.now) }
{
    json!(in alloc; {
        "cuts": cuts, "entry": name, "overs": overs, "reports": reports, "verdict": verdict
    })
}

/// Returns the list of the cuts.
fn cuts_value(alloc: Global, files: &[Name], cuts: &[Cut]) -> Result<Value, AllocError>
    ensures { IfOk result (λ value.
        view value ≡ list (map (form.cut_json files.now) cuts.now)) }
{
    let mut list = Vec::new(alloc);
    for cut in cuts {
        list.push(cut_value(alloc, files, *cut)?)?;
    }
    Ok(Value::Array(list))
}

/// Returns the list of the reports of these kinds.
fn reports_value(
    alloc: Global,
    program: &Program,
    kinds: &[Kind],
    reports: &[Finding],
) -> Result<Value, AllocError>
    ensures { IfOk result (λ value. view value
        ≡ list (map (form.finding_json (typed_program program.now))
        (filter (λ (f : Finding). selected.is_selected kinds.now f.what) reports.now))) }
{
    let mut list = Vec::new(alloc);
    for report in reports {
        if is_selected(kinds, report.what) {
            list.push(finding_value(alloc, program, report)?)?;
        }
    }
    Ok(Value::Array(list))
}

/// Returns the list of the met budgets.
fn overs_value(alloc: Global, program: &Program, overs: &[Finding]) -> Result<Value, AllocError>
    ensures { IfOk result (λ value. view value
        ≡ list (map (form.finding_json (typed_program program.now)) overs.now)) }
{
    let mut list = Vec::new(alloc);
    for over in overs {
        list.push(finding_value(alloc, program, over)?)?;
    }
    Ok(Value::Array(list))
}
