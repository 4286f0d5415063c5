//! Suspects that are shown: the run ends as suspected, and each of its guesses is real.
ghost use Rattle.std.specs.Prelude.{◌≡◌, ◌↔◌, ◌<◌, ◌≤◌, [], map, length, All, IfOk, IfSome, IfNone, IsSome, IsTrue};
ghost use Rattle.cs_findings.specs.Runs.{run_of};
ghost use Rattle.cs_findings.specs.GoodFindings.{Ascend, IsFinding};
ghost use Rattle.cs_witness.specs.Entries.{CanRun, Gives};
ghost use Rattle.cs_witness.specs.Listing.{IsListed, AgreesWith};
ghost use Rattle.cs_witness.specs.Pooling.{IsEvidentRun};
ghost use Rattle.cs_witness.specs.Witnesses.{IsShownOf, IsElsewhereOf, IsEvidentOf};

use crate::entry::Entry;
use crate::grounds::grounds_of;
use crate::listing::listed;
use crate::order::is_outcome;
use crate::replaying::replayed;
use cs_events::{Guess, Outcome};
use cs_findings::{Finding, Run};
use cs_inputs::Inputs;
use cs_replay::Replayed;
use cs_suspect_types::{Suspect, SuspectedGuess};
use std::alloc::{AllocError, Global};

// A run that lists exactly the inputs that it reads, with its replay.
#[derive(Drop)]
pub struct Listed {
    pub run: Run,
    pub replayed: Replayed,
}

/// Returns the finding of a suspect's run, whatever its outcome, with the grounds of its guesses. Returns None if the run doesn't end as
/// suspected after as many events, lists guesses out of order, or has a guess that isn't shown to be real. Paths that a suspect lists and
/// its run doesn't read change nothing, and the finding doesn't list them. No other inputs are tried.
pub fn shown(alloc: Global, entry: &Entry, suspect: &Suspect) -> Result<Option<Finding>, AllocError>
    requires { CanRun entry.now }
    ensures shown { IfOk result (λ found. IfSome found
        (IsShownOf entry.now)) }
    ensures so { IfOk result (λ found. IfSome found (λ finding.
        IsFinding suspect.now.what → finding.what ≡ suspect.now.what)) }
    ensures found { IfOk result (λ found. IsFinding suspect.now.what
        → IsEvidentOf entry.now suspect.now → IsSome found) }
{
    let guesses = guesses_of(alloc, &suspect.guesses)?;
    let listed = listed_run(alloc, entry, &suspect.inputs, guesses)?;
    if !is_as_suspected(suspect, &listed.replayed) {
        return Ok(None);
    }
    with_grounds(alloc, entry, &suspect.guesses, listed)
}

/// Returns the finding of the run from given inputs without guesses, if it has this outcome.
pub fn plain(
    alloc: Global,
    entry: &Entry,
    inputs: &Inputs,
    what: Outcome,
) -> Result<Option<Finding>, AllocError>
    requires runs { CanRun entry.now }
    requires finding { IsFinding what }
    ensures shown { IfOk result (λ found. IfSome found
        (IsShownOf entry.now)) }
    ensures so { IfOk result (λ found. IfSome found (λ finding. finding.what ≡ what)) }
    ensures plain { IfOk result (λ found. IfSome found (λ finding.
        finding.run.guesses.items ≡ [])) }
    ensures elsewhere { IfOk result (λ found. IfNone found
        (IsElsewhereOf entry.now what inputs.now)) }
{
    let guesses = Vec::new(alloc);
    let listed = listed_run(alloc, entry, inputs, guesses)?;
    if !is_outcome(listed.replayed.outcome, what) {
        return Ok(None);
    }
    let grounds = Vec::new(alloc);
    Ok(Some(Finding {
        what,
        run: listed.run,
        grounds,
        events: listed.replayed.log.events,
    }))
}

// Returns the finding of a run, if its guesses are in order and are shown to be real.
fn with_grounds(
    alloc: Global,
    entry: &Entry,
    guesses: &[SuspectedGuess],
    listed: Listed,
) -> Result<Option<Finding>, AllocError>
    requires runs { CanRun entry.now }
    requires listed { IsListed entry.now listed }
    ensures shown { IfOk result (λ found. IfSome found (IsShownOf entry.now)) }
    ensures so { IfOk result (λ found. IfSome found (λ finding.
        finding.what ≡ listed.replayed.outcome)) }
    ensures found { IfOk result (λ found.
        All (λ g. g.event ≤ length listed.replayed.log.events.items) listed.run.guesses.items
        → IsEvidentRun entry.now guesses.now (run_of listed.run) → IsSome found) }
{
    if !are_in_order(
        listed.run.guesses.as_slice(),
        listed.replayed.log.events.len() as u64,
    ) {
        return Ok(None);
    }
    match grounds_of(alloc, entry, guesses, &listed.run, &listed.replayed)? {
        Some(grounds) => Ok(Some(Finding {
            what: listed.replayed.outcome,
            run: listed.run,
            grounds,
            events: listed.replayed.log.events,
        })),
        None => Ok(None),
    }
}

// Replays the run from the given inputs, and returns it with the inputs that it reads.
fn listed_run(
    alloc: Global,
    entry: &Entry,
    given: &Inputs,
    guesses: Vec<Guess>,
) -> Result<Listed, AllocError>
    requires { CanRun entry.now }
    ensures listed { IfOk result (IsListed entry.now) }
    ensures agrees { IfOk result (λ listed. AgreesWith given.now listed.run.inputs) }
    ensures guesses { IfOk result (λ listed. listed.run.guesses.items ≡ guesses.items) }
    ensures same { IfOk result (λ listed. Gives entry.now
        (record { inputs = given.now; guesses = guesses.items }) listed.replayed) }
{
    let replayed = replayed(
        alloc,
        entry,
        given,
        guesses.as_slice(),
        entry.budgets.events,
    )?;
    let inputs = listed(alloc, entry, given, replayed.log.read.as_slice())?;
    Ok(Listed {
        run: Run { inputs, guesses },
        replayed,
    })
}

// The guesses of a suspect.
fn guesses_of(alloc: Global, suspected: &[SuspectedGuess]) -> Result<Vec<Guess>, AllocError>
    ensures { IfOk result (λ made. made.items ≡ map (λ one. one.guess) suspected.now) }
{
    let mut guesses = Vec::new(alloc);
    for one in suspected {
        guesses.push(one.guess)?;
    }
    Ok(guesses)
}

// Whether a run ends as suspected, after as many events.
fn is_as_suspected(suspect: &Suspect, replayed: &Replayed) -> bool
    ensures so { IsTrue result → IsFinding suspect.now.what
        → replayed.now.outcome ≡ suspect.now.what }
    ensures yes { IsFinding suspect.now.what → replayed.now.outcome ≡ suspect.now.what
        → length replayed.now.log.events.items ≡ suspect.now.events → IsTrue result }
{
    ends_so(replayed.outcome, suspect.what) && replayed.log.events.len() as u64 == suspect.events
}

// Whether an outcome is the suspected one. The value that an entry returns isn't suspected.
fn ends_so(outcome: Outcome, suspected: Outcome) -> bool
    ensures { IsFinding suspected → (IsTrue result ↔ (outcome ≡ suspected)) }
{
    match suspected {
        Outcome::Done(_) => match outcome {
            Outcome::Done(_) => true,
            Outcome::Fault(_, _) => false,
            Outcome::Over(_, _) => false,
        },
        Outcome::Fault(_, _) => is_outcome(outcome, suspected),
        Outcome::Over(_, _) => is_outcome(outcome, suspected),
    }
}

// Whether guesses ascend, and none is after the last event.
fn are_in_order(guesses: &[Guess], events: u64) -> bool
    ensures ascending { IsTrue result → Ascend guesses.now }
    ensures passed { IsTrue result → All (λ g. g.event ≤ events) guesses.now }
    ensures yes { Ascend guesses.now → All (λ g. 0 < g.event) guesses.now
        → All (λ g. g.event ≤ events) guesses.now → IsTrue result }
{
    let mut last = 0;
    for guess in guesses {
        if !stands_after(guess, last, events) {
            return false;
        }
        last = guess.event;
    }
    true
}

// Whether a guess is after an event, and not after the last one.
fn stands_after(guess: &Guess, earlier: u64, last: u64) -> bool
    ensures after { IsTrue result → earlier < guess.now.event }
    ensures within { IsTrue result → guess.now.event ≤ last }
    ensures yes { earlier < guess.now.event → guess.now.event ≤ last → IsTrue result }
{
    earlier < guess.event && guess.event <= last
}
