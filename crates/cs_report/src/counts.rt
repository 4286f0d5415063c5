//! The summary of results.
ghost use Rattle.std.specs.Prelude.{◌≡◌, ◌++◌, OnOk, IfOk};
ghost use Rattle.std.specs.List.{flat_map, count_by};
ghost use Rattle.cs_model.specs.declared.kind.Kind.{Kind};
ghost use Rattle.cs_results.specs.declared.finding.Finding.{Finding};
ghost use Rattle.cs_results.specs.declared.result.EntryResult.{EntryResult};
ghost use Rattle.cs_results.specs.Selected as selected;
ghost use Rattle.cs_results.specs.Verdicts as verdicts;
ghost use Rattle.cs_report_parts.specs.RunLines.{text_of};
ghost use Rattle.cs_report.specs.SummaryLines as lines;

use cs_model::Kind;
use cs_report_parts::append;
use cs_results::{EntryResult, Finding, every_kind, is_kind};
use std::alloc::{AllocError, Global};

/// Returns the summary of the results of a file with this many bytes: how many entries there are, how many with each verdict, and how many
/// reports of each kind, for kinds with a report.
pub fn summary(alloc: Global, bytes: usize, results: &[EntryResult]) -> Result<Vec<u8>, AllocError>
    ensures { IfOk result (λ text. text.items ≡ lines.summary_text bytes results.now) }
{
    let mut text = Vec::new(alloc);
    let complete = complete_of(results);
    let bounded = bounded_of(results);
    let cut = cut_of(results);
    append(&mut text, format_args!("bytes {bytes}\n"))?;
    append(&mut text, format_args!("entries {}\n", results.len()))?;
    append(&mut text, format_args!("complete {complete}\n"))?;
    append(&mut text, format_args!("bounded {bounded}\n"))?;
    append(&mut text, format_args!("cut {cut}\n"))?;
    let kinds = every_kind();
    append_kinds(&mut text, &kinds, results)?;
    Ok(text)
}

/// Returns how many results are complete.
fn complete_of(results: &[EntryResult]) -> usize
    ensures { result
        ≡ count_by (λ (r : EntryResult). verdicts.is_complete r.verdict) results.now }
{
    results
        .iter()
        .filter(|entry| entry.verdict.is_complete())
        .count()
}

/// Returns how many results are bounded.
fn bounded_of(results: &[EntryResult]) -> usize
    ensures { result
        ≡ count_by (λ (r : EntryResult). verdicts.is_bounded r.verdict) results.now }
{
    results
        .iter()
        .filter(|entry| entry.verdict.is_bounded())
        .count()
}

/// Returns how many results are cut.
fn cut_of(results: &[EntryResult]) -> usize
    ensures { result
        ≡ count_by (λ (r : EntryResult). verdicts.is_cut r.verdict) results.now }
{
    results
        .iter()
        .filter(|entry| entry.verdict.is_cut())
        .count()
}

/// Appends a line for each of these kinds that has a report.
fn append_kinds(
    text: &mut Vec<u8>,
    kinds: &[Kind],
    results: &[EntryResult],
) -> Result<(), AllocError>
    ensures { OnOk result (text.new.items ≡ text.old.items ++ flat_map (λ (kind : Kind).
        text_of (lines.kind_lines results.now kind)) kinds.now) }
{
    for kind in kinds {
        append_kind(text, *kind, results)?;
    }
    Ok(())
}

/// Appends `report KIND COUNT`, if there is a report of the kind.
fn append_kind(text: &mut Vec<u8>, kind: Kind, results: &[EntryResult]) -> Result<(), AllocError>
    ensures { OnOk result (text.new.items
        ≡ text.old.items ++ text_of (lines.kind_lines results.now kind)) }
{
    let count = reports_of(kind, results);
    if count == 0 {
        return Ok(());
    }
    append(text, format_args!("report {} {count}\n", kind.name()))
}

/// Returns how many reports have a kind.
fn reports_of(kind: Kind, results: &[EntryResult]) -> u128
    ensures { result ≡ lines.reports_of kind results.now }
{
    let mut count = 0u128;
    for entry in results {
        count += count_of(kind, &entry.reports) as u128;
    }
    count
}

/// Returns how many findings are reports of a kind.
fn count_of(kind: Kind, findings: &[Finding]) -> usize
    ensures { result
        ≡ count_by (λ (f : Finding). selected.is_kind kind f.what) findings.now }
{
    findings
        .iter()
        .filter(|finding| is_kind(kind, finding.what))
        .count()
}
