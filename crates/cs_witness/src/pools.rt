//! The pool of a suspect: its run, and the runs of its guesses' corners.
ghost use Rattle.std.specs.Prelude.{◌≡◌, OnOk, IfOk, map, All, false};
ghost use Rattle.cs_findings.specs.Runs.{run_of};
ghost use Rattle.cs_judge.specs.Proving.{FindAllProofs};
ghost use Rattle.cs_witness.specs.Entries.{CanRun};
ghost use Rattle.cs_witness.specs.Keeping.{Widens, KeepsRuns, bare};
ghost use Rattle.cs_witness.specs.Pooling.{AddsCorners, AddsAllCorners, HaveProofs, IsFound, AreFound, AreNamed, IsRowAt};

use crate::copies::copy_run;
use crate::corners::corners_of;
use crate::entry::Entry;
use crate::kept::replay_up_to;
use cs_findings::{Others, Run};
use cs_judge::{Partners, Replay, partners};
use cs_suspect_types::SuspectedGuess;
use std::alloc::{AllocError, Global};

// A pool with this many runs beside the shown run and its corners gets no more; also the most rounds in which these are looked for.
const MOST_FURTHER_RUNS: usize = 64;

/// Adds the runs of the corners of each of a run's guesses to a pool.
pub fn add_all_corners(
    alloc: Global,
    entry: &Entry,
    pool: &mut Vec<Replay>,
    run: &Run,
    guesses: &[SuspectedGuess],
) -> Result<(), AllocError>
    requires { CanRun entry.now }
    ensures widens { OnOk result (Widens entry.now pool.old.items pool.new.items) }
    ensures corners { OnOk result (AddsAllCorners entry.now (run_of run.now) guesses.now
        pool.old.items pool.new.items) }
{
    for guess in guesses {
        add_corners(alloc, entry, pool, run, guess)?;
    }
    Ok(())
}

/// Adds corners of those guesses of other runs of the pool that find no partners there, and returns the partners that are found then.
/// Nothing is added if each guess has partners in the pool.
pub fn add_further_corners(
    alloc: Global,
    entry: &Entry,
    pool: &mut Vec<Replay>,
    guesses: &[SuspectedGuess],
) -> Result<Vec<Vec<Partners>>, AllocError>
    requires { CanRun entry.now }
    ensures widens { IfOk result (λ _. Widens entry.now pool.old.items pool.new.items) }
    ensures none { IfOk result (λ _. HaveProofs entry.now.program.now.model pool.old.items
        → pool.new.items ≡ pool.old.items) }
    ensures found { IfOk result (λ found. FindAllProofs entry.now.program.now.model
        pool.new.items found.items) }
{
    let most = pool.len().saturating_add(MOST_FURTHER_RUNS);
    for _round in 0..MOST_FURTHER_RUNS {
        let found = partners(alloc, entry.program.model, pool.as_slice())?;
        let before = pool.len();
        add_missing(alloc, entry, pool, guesses, found.as_slice(), most)?;
        if pool.len() == before {
            return Ok(found);
        }
    }
    partners(alloc, entry.program.model, pool.as_slice())
}

/// Writes the partners that were found for all guesses into the runs of the pool.
pub fn name_partners(
    alloc: Global,
    pool: &mut Vec<Replay>,
    found: &[Vec<Partners>],
) -> Result<(), AllocError>
    ensures runs { OnOk result (KeepsRuns pool.old.items pool.new.items) }
    ensures named { OnOk result (AreNamed found.now pool.new.items) }
{
    for number in 0..pool.len() {
        name(alloc, &mut pool[number], row_at(found, number))?;
    }
    Ok(())
}

// Returns the partners that were found for a run.
fn row_at(found: &[Vec<Partners>], number: usize) -> &[Partners]
    ensures { IsRowAt found.now number result.now }
{
    match found.get(number) {
        Some(row) => row.as_slice(),
        None => &[],
    }
}

// Writes the partners of a run's guesses into it.
fn name(alloc: Global, replay: &mut Replay, named: &[Partners]) -> Result<(), AllocError>
    ensures same { bare replay.new ≡ bare replay.old }
    ensures named { OnOk result (replay.new.partners.items ≡ named.now) }
{
    replay.partners = Vec::from_slice(alloc, named)?;
    Ok(())
}

// Adds the corners of a guess.
fn add_corners(
    alloc: Global,
    entry: &Entry,
    pool: &mut Vec<Replay>,
    run: &Run,
    guess: &SuspectedGuess,
) -> Result<(), AllocError>
    requires { CanRun entry.now }
    ensures widens { OnOk result (Widens entry.now pool.old.items pool.new.items) }
    ensures corners { OnOk result (AddsCorners entry.now (run_of run.now) guess.now
        pool.old.items pool.new.items) }
{
    for corner in corners_of(alloc, run, guess)? {
        let replay = replay_up_to(alloc, entry, corner, guess.guess.event)?;
        pool.push(replay)?;
    }
    Ok(())
}

// Adds the corners of each guess that found no partners, except for those of the shown run, whose corners are in the pool already.
fn add_missing(
    alloc: Global,
    entry: &Entry,
    pool: &mut Vec<Replay>,
    guesses: &[SuspectedGuess],
    found: &[Vec<Partners>],
    most: usize,
) -> Result<(), AllocError>
    requires { CanRun entry.now }
    ensures widens { OnOk result (Widens entry.now pool.old.items pool.new.items) }
    ensures none { OnOk result (AreFound found.now
        → pool.new.items ≡ pool.old.items) }
{
    for number in 1..found.len() {
        add_missing_of(
            alloc,
            entry,
            pool,
            guesses,
            number,
            row_at(found, number),
            most,
        )?;
    }
    Ok(())
}

// Does the same for one run.
fn add_missing_of(
    alloc: Global,
    entry: &Entry,
    pool: &mut Vec<Replay>,
    guesses: &[SuspectedGuess],
    number: usize,
    row: &[Partners],
    most: usize,
) -> Result<(), AllocError>
    requires { CanRun entry.now }
    ensures widens { OnOk result (Widens entry.now pool.old.items pool.new.items) }
    ensures none { OnOk result (All IsFound row.now → pool.new.items ≡ pool.old.items) }
{
    for (guess, partners) in guesses.iter().zip(row) {
        if is_missing(partners) && pool.len() < most {
            add_corners_of(alloc, entry, pool, number, guess)?;
        }
    }
    Ok(())
}

// Adds the corners of a guess of the run with a number.
fn add_corners_of(
    alloc: Global,
    entry: &Entry,
    pool: &mut Vec<Replay>,
    number: usize,
    guess: &SuspectedGuess,
) -> Result<(), AllocError>
    requires { CanRun entry.now }
    ensures { OnOk result (Widens entry.now pool.old.items pool.new.items) }
{
    let Some(run) = run_at(alloc, pool.as_slice(), number)? else {
        return Ok(());
    };
    add_corners(alloc, entry, pool, &run, guess)
}

// Returns a copy of the run with a number.
fn run_at(alloc: Global, pool: &[Replay], number: usize) -> Result<Option<Run>, AllocError> {
    match pool.get(number) {
        Some(replay) => Ok(Some(copy_run(alloc, &replay.run)?)),
        None => Ok(None),
    }
}

// Whether no partners were found.
fn is_missing(partners: &Partners) -> bool
    ensures { IsFound partners.now → result ≡ false }
{
    match partners.others {
        Others::One(number) => number == usize::MAX,
        Others::Two(_, _) => false,
    }
}
