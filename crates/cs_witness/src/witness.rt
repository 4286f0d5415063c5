//! The result of an entry.
ghost use Rattle.std.specs.Prelude.{◌≡◌, ◌≤◌, [], length, Contains, Some, slice_get, IfOk, IfSome, IsSome, OnOk};
ghost use Rattle.std.specs.List.Sorted.{IsSearchInRange};
ghost use Rattle.cs_ast.specs.TypedProgram.{typed_program};
ghost use Rattle.cs_findings.specs.EveryRun.{outcomes_of};
ghost use Rattle.cs_findings.specs.GoodFindings.{IsFinding};
ghost use Rattle.cs_findings.specs.GoodEntries.{IsFault, IsOver, IsGoodEntry, AreListed, AreCutsListed, verdict_of};
ghost use Rattle.cs_witness.specs.Entries.{CanRun};
ghost use Rattle.cs_witness.specs.Witnesses.{IsShownOf, IsGoodOf, AreGoodReports, AreGoodOvers, BelongsAt, IsPlaceIn};
ghost use Rattle.cs_witness.specs.Witnesses.{IsEvidentOf, IsIn, KeepsListed, ListsEvident};
ghost use Rattle.cs_witness.specs.Ranks.{AreRanked};
ghost use Rattle.cs_suspect_types.specs.declared.suspect.Suspect as suspected;

use crate::entry::Entry;
use crate::grounds::guesses_nothing;
use crate::neighbours::confirmed;
use crate::order::order;
use crate::showing::shown;
use cs_events::Outcome;
use cs_findings::{Cut, EntryResult, Finding, Verdict};
use cs_suspect_types::Suspect;
use std::alloc::{AllocError, Global};

/// The result of an entry, and how many of the suspects were dropped because they couldn't be shown.
#[derive(Drop)]
pub struct Witnessed {
    pub result: EntryResult,
    pub dropped: u64,
}

// The findings so far, and how many suspects were dropped.
#[derive(Drop)]
pub struct Findings {
    pub reports: Vec<Finding>,
    pub overs: Vec<Finding>,
    pub dropped: u64,
}

// The order in which suspects are examined: those without guesses first, then by the number of events, then as they are given.
#[derive(Clone, Copy, PartialEq, Eq, PartialOrd, Ord)]
pub struct Rank {
    pub guesses: bool,
    pub events: u64,
    pub number: usize,
}

/// Returns the result of an entry, given its suspects and where its exploration was cut. It has one finding for each outcome that is shown:
/// that of the first suspect of this outcome that is shown, where suspects without guesses come first, then those with fewest events. A
/// suspect that isn't shown is dropped, and counted. Returns an error if memory runs out, or if the function has no body and is replayed.
pub fn result(
    alloc: Global,
    entry: &Entry,
    suspects: &[Suspect],
    cuts: Vec<Cut>,
) -> Result<Witnessed, AllocError>
    requires runs { CanRun entry.now }
    requires cuts { AreCutsListed cuts.items }
    ensures good { IfOk result (λ witnessed. IsGoodEntry
        (typed_program entry.now.program.now) entry.now.budgets witnessed.result) }
    ensures entry { IfOk result (λ witnessed. witnessed.result.entry ≡ entry.now.function) }
    ensures cuts { IfOk result (λ witnessed. witnessed.result.cuts.items ≡ cuts.items) }
    ensures found { IfOk result (λ witnessed.
        ListsEvident entry.now suspects.now witnessed.result) }
{
    let ranks = ranked(alloc, suspects)?;
    let mut findings = Findings::new(alloc);
    for rank in &ranks {
        findings.take_numbered(alloc, entry, suspects, rank.number)?;
    }
    Ok(findings.into_result(entry, cuts))
}

// Returns the ranks of the suspects, in the order in which they are examined.
fn ranked(alloc: Global, suspects: &[Suspect]) -> Result<Vec<Rank>, AllocError>
    ensures { IfOk result (λ ranks. AreRanked (length suspects.now) ranks.items) }
{
    let mut ranks = Vec::new(alloc);
    for (number, suspect) in suspects.iter().enumerate() {
        ranks.push(Rank {
            guesses: !suspect.guesses.is_empty(),
            events: suspect.events,
            number,
        })?;
    }
    ranks.sort()?;
    Ok(ranks)
}

impl Findings {
    fn new(alloc: Global) -> Findings
        ensures reports { result.reports.items ≡ [] }
        ensures overs { result.overs.items ≡ [] }
    {
        Findings {
            reports: Vec::new(alloc),
            overs: Vec::new(alloc),
            dropped: 0,
        }
    }

    // Examines the suspect with a number.
    fn take_numbered(
        &mut self,
        alloc: Global,
        entry: &Entry,
        suspects: &[Suspect],
        number: usize,
    ) -> Result<(), AllocError>
        requires runs { CanRun entry.now }
        requires reports { AreGoodReports entry.now self.old.reports.items }
        requires overs { AreGoodOvers entry.now self.old.overs.items }
        ensures reports { OnOk result (AreGoodReports entry.now self.new.reports.items) }
        ensures overs { OnOk result (AreGoodOvers entry.now self.new.overs.items) }
        ensures reports_kept { OnOk result (KeepsListed self.old.reports.items
            self.new.reports.items) }
        ensures overs_kept { OnOk result (KeepsListed self.old.overs.items
            self.new.overs.items) }
        ensures found { OnOk result ((suspect : suspected.Suspect)
            → slice_get suspects.now number ≡ Some suspect → IsFinding suspect.what
            → IsEvidentOf entry.now suspect
            → IsIn suspect.what self.new.reports.items self.new.overs.items) }
    {
        match suspects.get(number) {
            Some(suspect) => self.take_in(alloc, entry, suspect),
            None => Ok(()),
        }
    }

    // Examines a suspect, unless its outcome is listed already.
    fn take_in(&mut self, alloc: Global, entry: &Entry, suspect: &Suspect) -> Result<(), AllocError>
        requires runs { CanRun entry.now }
        requires reports { AreGoodReports entry.now self.old.reports.items }
        requires overs { AreGoodOvers entry.now self.old.overs.items }
        ensures reports { OnOk result (AreGoodReports entry.now self.new.reports.items) }
        ensures overs { OnOk result (AreGoodOvers entry.now self.new.overs.items) }
        ensures reports_kept { OnOk result (KeepsListed self.old.reports.items
            self.new.reports.items) }
        ensures overs_kept { OnOk result (KeepsListed self.old.overs.items
            self.new.overs.items) }
        ensures found { OnOk result (IsFinding suspect.now.what
            → IsEvidentOf entry.now suspect.now
            → IsIn suspect.now.what self.new.reports.items self.new.overs.items) }
    {
        match suspect.what {
            Outcome::Done(_) => self.dropped = self.dropped.saturating_add(1),
            Outcome::Fault(_, _) => {
                let listed = list_if_shown(alloc, entry, &mut self.reports, suspect)?;
                self.count(listed);
            }
            Outcome::Over(_, _) => {
                let listed = list_if_shown(alloc, entry, &mut self.overs, suspect)?;
                self.count(listed);
            }
        }
        Ok(())
    }

    // Counts a suspect that wasn't shown as dropped.
    fn count(&mut self, listed: bool)
        ensures reports { self.new.reports ≡ self.old.reports }
        ensures overs { self.new.overs ≡ self.old.overs }
    {
        if !listed {
            self.dropped = self.dropped.saturating_add(1);
        }
    }

    fn into_result(self, entry: &Entry, cuts: Vec<Cut>) -> Witnessed
        requires reports { AreGoodReports entry.now self.reports.items }
        requires overs { AreGoodOvers entry.now self.overs.items }
        requires cuts { AreCutsListed cuts.items }
        ensures reports { result.result.reports.items ≡ self.reports.items }
        ensures overs { result.result.overs.items ≡ self.overs.items }
        ensures good { IsGoodEntry (typed_program entry.now.program.now) entry.now.budgets
            result.result }
        ensures entry { result.result.entry ≡ entry.now.function }
        ensures cuts { result.result.cuts.items ≡ cuts.items }
    {
        let verdict = verdict_of(cuts.as_slice(), self.overs.as_slice());
        Witnessed {
            result: EntryResult {
                entry: entry.function,
                verdict,
                reports: self.reports,
                overs: self.overs,
                cuts,
            },
            dropped: self.dropped,
        }
    }
}

// `Cut` if anything was cut, else `Bounded` if a budget was met, else `Complete`.
fn verdict_of(cuts: &[Cut], overs: &[Finding]) -> Verdict
    ensures { result ≡ verdict_of cuts.now overs.now }
{
    if !cuts.is_empty() {
        Verdict::Cut
    } else if !overs.is_empty() {
        Verdict::Bounded
    } else {
        Verdict::Complete
    }
}

// Whether a suspect's outcome is listed: it was before, or the suspect is shown and listed now.
fn list_if_shown(
    alloc: Global,
    entry: &Entry,
    findings: &mut Vec<Finding>,
    suspect: &Suspect,
) -> Result<bool, AllocError>
    requires runs { CanRun entry.now }
    requires finding { IsFinding suspect.now.what }
    requires listed { AreListed findings.old.items }
    ensures reports { OnOk result (IsFault suspect.now.what
        → AreGoodReports entry.now findings.old.items
        → AreGoodReports entry.now findings.new.items) }
    ensures overs { OnOk result (IsOver suspect.now.what
        → AreGoodOvers entry.now findings.old.items
        → AreGoodOvers entry.now findings.new.items) }
    ensures kept { OnOk result (KeepsListed findings.old.items findings.new.items) }
    ensures found_reports { OnOk result (IsFault suspect.now.what
        → AreGoodReports entry.now findings.old.items → IsEvidentOf entry.now suspect.now
        → Contains (outcomes_of findings.new.items) suspect.now.what) }
    ensures found_overs { OnOk result (IsOver suspect.now.what
        → AreGoodOvers entry.now findings.old.items → IsEvidentOf entry.now suspect.now
        → Contains (outcomes_of findings.new.items) suspect.now.what) }
{
    match place_in(findings.as_slice(), suspect.what) {
        Ok(_) => Ok(true),
        Err(place) => list_at(alloc, entry, findings, suspect, place),
    }
}

// Lists a suspect where its outcome belongs, if it is shown. Returns whether it is.
fn list_at(
    alloc: Global,
    entry: &Entry,
    findings: &mut Vec<Finding>,
    suspect: &Suspect,
    place: usize,
) -> Result<bool, AllocError>
    requires runs { CanRun entry.now }
    requires finding { IsFinding suspect.now.what }
    requires within { place ≤ length findings.old.items }
    requires place { BelongsAt suspect.now.what findings.old.items place }
    ensures reports { OnOk result (IsFault suspect.now.what
        → AreGoodReports entry.now findings.old.items
        → AreGoodReports entry.now findings.new.items) }
    ensures overs { OnOk result (IsOver suspect.now.what
        → AreGoodOvers entry.now findings.old.items
        → AreGoodOvers entry.now findings.new.items) }
    ensures kept { OnOk result (KeepsListed findings.old.items findings.new.items) }
    ensures found { OnOk result (IsEvidentOf entry.now suspect.now
        → Contains (outcomes_of findings.new.items) suspect.now.what) }
{
    match finding_of(alloc, entry, suspect)? {
        Some(finding) => {
            findings.insert(place, finding)?;
            Ok(true)
        }
        None => Ok(false),
    }
}

// Returns the index at which an outcome is listed (Ok), or at which it has to be inserted (Err).
fn place_in(findings: &[Finding], what: Outcome) -> Result<usize, usize>
    requires { AreListed findings.now }
    ensures within { IsSearchInRange result (length findings.now) }
    ensures place { IsPlaceIn what findings.now result }
{
    findings.binary_search_by(|finding| order(finding.what, what))
}

// Returns the good finding of a suspect, if it is shown.
fn finding_of(
    alloc: Global,
    entry: &Entry,
    suspect: &Suspect,
) -> Result<Option<Finding>, AllocError>
    requires runs { CanRun entry.now }
    requires finding { IsFinding suspect.now.what }
    ensures good { IfOk result (λ found. IfSome found (IsGoodOf entry.now)) }
    ensures so { IfOk result (λ found. IfSome found (λ finding.
        finding.what ≡ suspect.now.what)) }
    ensures found { IfOk result (λ found. IsEvidentOf entry.now suspect.now → IsSome found) }
{
    match shown(alloc, entry, suspect)? {
        Some(finding) => {
            let good = good_finding(alloc, entry, finding)?;
            Ok(Some(good))
        }
        None => Ok(None),
    }
}

// Returns a shown finding, or instead that of the first neighbour that has the same outcome without guesses, if there is one.
fn good_finding(alloc: Global, entry: &Entry, finding: Finding) -> Result<Finding, AllocError>
    requires runs { CanRun entry.now }
    requires form { IsFinding finding.what }
    requires shown { IsShownOf entry.now finding }
    ensures good { IfOk result (IsGoodOf entry.now) }
    ensures so { IfOk result (λ good. good.what ≡ finding.what) }
{
    if guesses_nothing(&finding.run) {
        return Ok(finding);
    }
    match confirmed(alloc, entry, &finding.run.inputs, finding.what)? {
        Some(found) => Ok(found),
        None => Ok(finding),
    }
}
