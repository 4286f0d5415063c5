//! Which reports are selected.
ghost use Rattle.std.specs.Prelude.{◌≡◌};
ghost use Rattle.cs_results.specs.Selected as selected;

use crate::finding::Finding;
use crate::result::EntryResult;
use cs_events::Outcome;
use cs_model::Kind;

/// Returns every kind of fault, by number.
pub fn every_kind() -> [Kind; 11]
    ensures { result ≡ selected.every_kind }
{
    [
        Kind::Null,
        Kind::Divide,
        Kind::Unset,
        Kind::Bounds,
        Kind::DoubleFree,
        Kind::Freed,
        Kind::BadFree,
        Kind::DeadLocal,
        Kind::Shift,
        Kind::Unrelated,
        Kind::ConstWrite,
    ]
}

/// Whether an outcome is a fault of this kind.
pub fn is_kind(kind: Kind, what: Outcome) -> bool
    ensures { result ≡ selected.is_kind kind what }
{
    match what {
        Outcome::Fault(other, _) => kind.number() == other.number(),
        Outcome::Done(_) | Outcome::Over(_, _) => false,
    }
}

/// Whether an outcome is a fault of one of these kinds.
pub fn is_selected(kinds: &[Kind], what: Outcome) -> bool
    ensures { result ≡ selected.is_selected kinds.now what }
{
    kinds.iter().any(|kind| is_kind(*kind, what))
}

/// Whether a report of one of these kinds is listed.
pub fn lists_report(results: &[EntryResult], kinds: &[Kind]) -> bool
    ensures { result ≡ selected.lists_report kinds.now results.now }
{
    results
        .iter()
        .any(|entry| has_report(&entry.reports, kinds))
}

/// Whether one of the findings is a report of one of these kinds.
fn has_report(findings: &[Finding], kinds: &[Kind]) -> bool
    ensures { result ≡ selected.has_report kinds.now findings.now }
{
    findings
        .iter()
        .any(|finding| is_selected(kinds, finding.what))
}
