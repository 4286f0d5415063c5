//! The grounds of a run's guesses.
ghost use Rattle.std.specs.Prelude.{◌≡◌, ◌<◌, [], IsTrue, Some, slice_get, length, IfOk, IfSome, IsSome};
ghost use Rattle.cs_ast.specs.TypedProgram.{typed_program};
ghost use Rattle.cs_results.specs.declared.run.Others.TheVariants as others;
ghost use Rattle.cs_findings.specs.Runs.{run_of, run_budgets};
ghost use Rattle.cs_findings.specs.GoodFindings.{IsEach, IsGroundOf, AllOthers};
ghost use Rattle.cs_judge.specs.declared.pool.Replay as replays;
ghost use Rattle.cs_judge.specs.Pools.{IsKept};
ghost use Rattle.cs_witness.specs.Entries.{CanRun, Gives};
ghost use Rattle.cs_witness.specs.Grounding.{IsGroundIn, AreGroundsIn, AreRunsAt, IsListedRunAt, IsPlaceAt, HasGroundsIn, HasGroundIn, HasPlaceAt, IsAlikeAt};
ghost use Rattle.cs_witness.specs.Pooling.{IsShownReplay, IsEvidentRun};

use crate::copies::copy_run;
use crate::entry::Entry;
use crate::kept::kept_of;
use crate::listing::same_paths;
use crate::pools::{add_all_corners, add_further_corners, name_partners};
use cs_ast::Place;
use cs_events::Guess;
use cs_findings::{Ground, Others, Run};
use cs_inputs::Inputs;
use cs_judge::{Kept, Replay, are_real};
use cs_replay::Replayed;
use cs_suspect_types::SuspectedGuess;
use std::alloc::{AllocError, Global};

/// Returns the grounds of a run's guesses, or None if the judge isn't convinced that all of them are real.
pub fn grounds_of(
    alloc: Global,
    entry: &Entry,
    guesses: &[SuspectedGuess],
    run: &Run,
    replayed: &Replayed,
) -> Result<Option<Vec<Ground>>, AllocError>
    requires runs { CanRun entry.now }
    requires replayed { Gives entry.now (run_of run.now) replayed.now }
    ensures grounds { IfOk result (λ found. IfSome found (λ grounds.
        IsEach (IsGroundOf (typed_program entry.now.program.now) entry.now.function
        (run_budgets entry.now.budgets) (run_of run.now))
        run.now.guesses.items grounds.items)) }
    ensures found { IfOk result (λ found.
        IsEvidentRun entry.now guesses.now (run_of run.now) → IsSome found) }
{
    if guesses_nothing(run) {
        let none = Vec::new(alloc);
        return Ok(Some(none));
    }
    let mut pool = Vec::new(alloc);
    pool.push(shown_replay(alloc, entry, run, replayed)?)?;
    add_all_corners(alloc, entry, &mut pool, run, guesses)?;
    let found = add_further_corners(alloc, entry, &mut pool, guesses)?;
    name_partners(alloc, &mut pool, found.as_slice())?;
    if !are_real(alloc, entry.program.model, pool.as_slice())? {
        return Ok(None);
    }
    grounds_in(alloc, pool.as_slice(), &run.inputs)
}

/// Whether a run lists no guess.
#[tactic(auto, using(crate::proofs::PoolLemmas::none_there))]
pub fn guesses_nothing(run: &Run) -> bool
    ensures { IsTrue result → run.now.guesses.items ≡ [] }
{
    run.guesses.is_empty()
}

// Returns the run that is shown, in the judge's form.
fn shown_replay(
    alloc: Global,
    entry: &Entry,
    run: &Run,
    replayed: &Replayed,
) -> Result<Replay, AllocError>
    requires runs { CanRun entry.now }
    requires replayed { Gives entry.now (run_of run.now) replayed.now }
    ensures kept { IfOk result (IsKept (typed_program entry.now.program.now) entry.now.function
        (run_budgets entry.now.budgets)) }
    ensures shown { IfOk result (IsShownReplay entry.now (run_of run.now)) }
{
    let run = copy_run(alloc, run)?;
    let events = Vec::from_slice(alloc, replayed.log.events.as_slice())?;
    let kept = kept_of(alloc, replayed.log.pending.as_slice())?;
    Ok(Replay {
        run,
        events,
        kept,
        partners: Vec::new(alloc),
    })
}

// Returns the grounds of the guesses of the first run of a pool, if each guess has one, of runs that list the same paths.
fn grounds_in(
    alloc: Global,
    pool: &[Replay],
    inputs: &Inputs,
) -> Result<Option<Vec<Ground>>, AllocError>
    ensures grounds { IfOk result (λ found. IfSome found (λ grounds.
        (mine : replays.Replay) → slice_get pool.now 0 ≡ Some mine
        → AreGroundsIn pool.now mine inputs.now grounds.items)) }
    ensures found { IfOk result (λ found. (mine : replays.Replay)
        → slice_get pool.now 0 ≡ Some mine
        → HasGroundsIn pool.now mine inputs.now → IsSome found) }
{
    match pool.first() {
        Some(mine) => grounds_for(alloc, pool, mine, inputs),
        None => Ok(None),
    }
}

fn grounds_for(
    alloc: Global,
    pool: &[Replay],
    mine: &Replay,
    inputs: &Inputs,
) -> Result<Option<Vec<Ground>>, AllocError>
    ensures grounds { IfOk result (λ found. IfSome found (λ grounds.
        AreGroundsIn pool.now mine.now inputs.now grounds.items)) }
    ensures found { IfOk result (λ found.
        HasGroundsIn pool.now mine.now inputs.now → IsSome found) }
{
    let mut grounds = Vec::new(alloc);
    for place in 0..mine.run.guesses.len() {
        match ground_of(alloc, pool, mine, inputs, place)? {
            Some(ground) => grounds.push(ground)?,
            None => return Ok(None),
        }
    }
    Ok(Some(grounds))
}

// Returns the ground of one guess, if there is one.
fn ground_of(
    alloc: Global,
    pool: &[Replay],
    mine: &Replay,
    inputs: &Inputs,
    number: usize,
) -> Result<Option<Ground>, AllocError>
    requires { number < length mine.now.run.guesses.items }
    ensures ground { IfOk result (λ found. IfSome found
        (IsGroundIn pool.now mine.now inputs.now number)) }
    ensures found { IfOk result (λ found.
        HasGroundIn pool.now mine.now inputs.now number → IsSome found) }
{
    let guess = mine.run.guesses[number];
    let Some(partners) = mine.partners.get(number) else {
        return Ok(None);
    };
    let Some(place) = place_of(mine, guess) else {
        return Ok(None);
    };
    match others_in(alloc, pool, inputs, partners.others)? {
        Some(others) => Ok(Some(Ground {
            guess,
            place,
            others,
        })),
        None => Ok(None),
    }
}

// Returns the position of the operation that was kept at a guess, if there is one.
fn place_of(mine: &Replay, guess: Guess) -> Option<Place>
    ensures place { IfSome result (IsPlaceAt mine.now guess) }
    ensures found { HasPlaceAt mine.now guess → IsSome result }
{
    let passed = guess.event.checked_sub(1)?;
    match mine.kept.get(passed as usize) {
        Some(kept) => match *kept {
            Kept::Operates(place, _) => Some(place),
            Kept::Other => None,
        },
        None => None,
    }
}

// Returns copies of the runs of a pool with these numbers, if they list the same paths.
fn others_in(
    alloc: Global,
    pool: &[Replay],
    inputs: &Inputs,
    others: Others<usize>,
) -> Result<Option<Others<Run>>, AllocError>
    ensures runs { IfOk result (λ found. IfSome found (AreRunsAt pool.now inputs.now others)) }
    ensures found { IfOk result (λ found.
        AllOthers (IsAlikeAt pool.now inputs.now) others → IsSome found) }
{
    match others {
        Others::One(number) => match other_in(alloc, pool, inputs, number)? {
            Some(run) => Ok(Some(Others::One(run))),
            None => Ok(None),
        },
        Others::Two(first, second) => two_in(alloc, pool, inputs, first, second),
    }
}

fn two_in(
    alloc: Global,
    pool: &[Replay],
    inputs: &Inputs,
    first: usize,
    second: usize,
) -> Result<Option<Others<Run>>, AllocError>
    ensures runs { IfOk result (λ found. IfSome found
        (AreRunsAt pool.now inputs.now (others.Two first second))) }
    ensures found { IfOk result (λ found. IsAlikeAt pool.now inputs.now first
        → IsAlikeAt pool.now inputs.now second → IsSome found) }
{
    let Some(one) = other_in(alloc, pool, inputs, first)? else {
        return Ok(None);
    };
    let Some(other) = other_in(alloc, pool, inputs, second)? else {
        return Ok(None);
    };
    Ok(Some(Others::Two(one, other)))
}

// Returns a copy of the run of a pool with a number, if it lists the same paths.
fn other_in(
    alloc: Global,
    pool: &[Replay],
    inputs: &Inputs,
    number: usize,
) -> Result<Option<Run>, AllocError>
    ensures run { IfOk result (λ found. IfSome found
        (IsListedRunAt pool.now inputs.now number)) }
    ensures found { IfOk result (λ found. IsAlikeAt pool.now inputs.now number
        → IsSome found) }
{
    match replay_at(pool, number) {
        Some(replay) => {
            if !same_paths(&replay.run.inputs, inputs) {
                return Ok(None);
            }
            let run = copy_run(alloc, &replay.run)?;
            Ok(Some(run))
        }
        None => Ok(None),
    }
}

fn replay_at(pool: &[Replay], number: usize) -> Option<&Replay>
    ensures there { IfSome result (λ replay. slice_get pool.now number ≡ Some replay.now) }
    ensures found { number < length pool.now → IsSome result }
{
    pool.get(number)
}
