//! Which ends of an exploration are suspected.
ghost use Rattle.std.specs.Prelude.{◌≡◌, ◌↔◌, true, Some, map, slice_get, IsTrue, IfOk, IfSome};
ghost use Rattle.cs_findings.specs.GoodFindings.{IsFinding};
ghost use Rattle.cs_suspects.specs.Chosen.{numbers_of, AreOfFindings, HaveAllFindings, AreAllChosen, counted, IsWanted};

use cs_events::Outcome;
use cs_explored::End;
use std::alloc::{AllocError, Global};

/// The most ends of one outcome that are suspected.
const MOST_OF_ONE: u32 = 4;

// The order of ends: those without guesses first, then by the number of events, then as they were found.
#[derive(Clone, Copy, PartialEq, Eq, PartialOrd, Ord)]
struct Rank {
    guesses: bool,
    events: u64,
    number: usize,
}

// An outcome with the number of ends of it that were chosen.
#[derive(Clone, Copy)]
struct Count {
    outcome: Outcome,
    chosen: u32,
}

/// Returns the numbers of the ends that are suspected: for each fault and each met budget the first few, where those without guesses come
/// first, and among them those with fewest events.
pub fn chosen(alloc: Global, ends: &[End]) -> Result<Vec<usize>, AllocError>
    ensures each { IfOk result (λ numbers. AreOfFindings ends.now numbers.items) }
    ensures all { IfOk result (λ numbers. AreAllChosen ends.now numbers.items) }
{
    let mut counts = Vec::new(alloc);
    let mut numbers = Vec::new(alloc);
    let ranks = ranked(alloc, ends)?;
    for rank in &ranks {
        let Some(end) = ends.get(rank.number) else {
            continue;
        };
        if is_wanted(&mut counts, end.outcome)? {
            numbers.push(rank.number)?;
        }
    }
    Ok(numbers)
}

// Returns the ranks of the ends that are faults or met budgets, in order.
fn ranked(alloc: Global, ends: &[End]) -> Result<Vec<Rank>, AllocError>
    ensures each { IfOk result (λ ranks. AreOfFindings ends.now (numbers_of ranks.items)) }
    ensures all { IfOk result (λ ranks. HaveAllFindings ends.now (numbers_of ranks.items)) }
{
    let mut ranks = Vec::new(alloc);
    for (number, end) in ends.iter().enumerate() {
        if is_finding(end.outcome) {
            let guesses = has_guesses(end)?;
            ranks.push(Rank {
                guesses,
                events: end.state.counters.events,
                number,
            })?;
        }
    }
    ranks.sort()?;
    Ok(ranks)
}

fn is_finding(outcome: Outcome) -> bool
    ensures { IsTrue result ↔ IsFinding outcome }
{
    match outcome {
        Outcome::Done(_) => false,
        Outcome::Fault(_, _) => true,
        Outcome::Over(_, _) => true,
    }
}

fn has_guesses(end: &End) -> Result<bool, AllocError> {
    let mut guesses = end.state.asked.iter()?;
    Ok(guesses.next().is_some())
}

// Whether one more end of an outcome is wanted; if so, counts it.
fn is_wanted(counts: &mut Vec<Count>, outcome: Outcome) -> Result<bool, AllocError>
    ensures { IfOk result (λ wanted.
        IsWanted outcome (counted counts.old.items) wanted (counted counts.new.items)) }
{
    let Some(place) = place_of(counts, outcome) else {
        counts.push(Count { outcome, chosen: 1 })?;
        return Ok(true);
    };
    let chosen = counts[place].chosen;
    if chosen >= MOST_OF_ONE {
        return Ok(false);
    }
    counts[place] = Count {
        outcome,
        chosen: chosen + 1,
    };
    Ok(true)
}

// Returns the index at which an outcome is counted, if it is.
fn place_of(counts: &[Count], outcome: Outcome) -> Option<usize>
    ensures { IfSome result (λ place. slice_get (counted counts.now) place ≡ Some outcome) }
{
    for (place, count) in counts.iter().enumerate() {
        if is_of(count, outcome) {
            return Some(place);
        }
    }
    None
}

fn is_of(count: &Count, outcome: Outcome) -> bool
    ensures { result ≡ true → count.now.outcome ≡ outcome }
{
    count.outcome == outcome
}
