//! The corners of a guess: runs in which the symbols of the operands are at the ends of their ranges, in the specification's order.
ghost use Rattle.std.specs.Prelude.{◌≡◌, ◌↔◌, [], ◌∷◌, nat_lt, map, filter, Some, IfOk, OnOk, IsTrue};
ghost use Rattle.cs_findings.specs.Runs.{run_of};
ghost use Rattle.cs_witness.specs.Evidence as evidence;
ghost use Rattle.cs_witness.specs.Corners.{IsCorner, IsPut, IsPutInput, AreRunsOf, AreCornersOf, put_guess};

use crate::copies::copy_inputs;
use crate::listing::lists;
use cs_events::Guess;
use cs_findings::Run;
use cs_inputs::{Inputs, Path};
use cs_suspect_types::{OperandRange, SuspectedGuess};
use cs_terms::SymName;
use std::alloc::{AllocError, Global};

/// Returns the runs of the corners of a guess: all other symbols keep the run's numbers, and no guess at the event or later is listed. The
/// order is: left least and right least, left least and right greatest, left greatest and right least, left greatest and right greatest; with
/// one symbol, least, then greatest.
pub fn corners_of(alloc: Global, run: &Run, guess: &SuspectedGuess) -> Result<Vec<Run>, AllocError>
    ensures { IfOk result (λ made. AreCornersOf guess.now.left guess.now.right
        guess.now.guess.event (run_of run.now) made.items) }
{
    let event = guess.guess.event;
    match &guess.left {
        None => ends_of(alloc, run, event, &guess.right),
        Some(left) => match &guess.right {
            None => two_of(alloc, run, event, left),
            Some(right) => all_of(alloc, run, event, left, right),
        },
    }
}

// Returns the corners of a right range, if there is one.
fn ends_of(
    alloc: Global,
    run: &Run,
    event: u64,
    range: &Option<OperandRange>,
) -> Result<Vec<Run>, AllocError>
    ensures { IfOk result (λ made. AreRunsOf event (run_of run.now)
        (evidence.ends_of range.now) made.items) }
{
    match range {
        None => Ok(Vec::new(alloc)),
        Some(range) => two_of(alloc, run, event, range),
    }
}

// Returns the corners of two ranges.
fn all_of(
    alloc: Global,
    run: &Run,
    event: u64,
    left: &OperandRange,
    right: &OperandRange,
) -> Result<Vec<Run>, AllocError>
    ensures { IfOk result (λ made. AreCornersOf (Some left.now) (Some right.now) event
        (run_of run.now) made.items) }
{
    if is_same(&left.symbol, &right.symbol) {
        two_of(alloc, run, event, left)
    } else {
        four_of(alloc, run, event, left, right)
    }
}

fn is_same(one: &SymName, other: &SymName) -> bool
    ensures { IsTrue result ↔ (one.now ≡ other.now) }
{
    one == other
}

// Returns the corners of one symbol.
fn two_of(
    alloc: Global,
    run: &Run,
    event: u64,
    range: &OperandRange,
) -> Result<Vec<Run>, AllocError>
    ensures { IfOk result (λ made. AreRunsOf event (run_of run.now)
        (evidence.ends_of (Some range.now)) made.items) }
{
    let mut corners = Vec::new(alloc);
    corners.push(end_of(alloc, run, event, &range.symbol, range.least)?)?;
    corners.push(end_of(alloc, run, event, &range.symbol, range.greatest)?)?;
    Ok(corners)
}

// Returns the corners of two symbols.
fn four_of(
    alloc: Global,
    run: &Run,
    event: u64,
    left: &OperandRange,
    right: &OperandRange,
) -> Result<Vec<Run>, AllocError>
    ensures { IfOk result (λ made. AreRunsOf event (run_of run.now)
        (evidence.four_of left.now right.now) made.items) }
{
    let mut corners = Vec::new(alloc);
    corners.push(both_of(alloc, run, event, left, left.least, right, right.least)?)?;
    corners.push(both_of(alloc, run, event, left, left.least, right, right.greatest)?)?;
    corners.push(both_of(alloc, run, event, left, left.greatest, right, right.least)?)?;
    corners.push(both_of(
        alloc,
        run,
        event,
        left,
        left.greatest,
        right,
        right.greatest,
    )?)?;
    Ok(corners)
}

// Returns the run with another number of a symbol, and only the guesses before an event.
fn end_of(
    alloc: Global,
    run: &Run,
    event: u64,
    symbol: &SymName,
    number: i128,
) -> Result<Run, AllocError>
    ensures { IfOk result (λ made. IsCorner ((symbol.now, number) ∷ []) event (run_of run.now)
        (run_of made)) }
{
    let mut corner = earlier(alloc, run, event)?;
    put(&mut corner, symbol, number)?;
    Ok(corner)
}

// Returns the run with other numbers of two symbols, and only the guesses before an event.
fn both_of(
    alloc: Global,
    run: &Run,
    event: u64,
    left: &OperandRange,
    first: i128,
    right: &OperandRange,
    second: i128,
) -> Result<Run, AllocError>
    ensures { IfOk result (λ made. IsCorner
        ((left.now.symbol, first) ∷ (right.now.symbol, second) ∷ []) event (run_of run.now)
        (run_of made)) }
{
    let mut corner = end_of(alloc, run, event, &left.symbol, first)?;
    put(&mut corner, &right.symbol, second)?;
    Ok(corner)
}

// Returns the run with only the guesses before an event.
fn earlier(alloc: Global, run: &Run, event: u64) -> Result<Run, AllocError>
    ensures { IfOk result (λ made. IsCorner [] event (run_of run.now) (run_of made)) }
{
    let inputs = copy_inputs(alloc, &run.inputs)?;
    let guesses = guesses_before(alloc, run.guesses.as_slice(), event)?;
    Ok(Run { inputs, guesses })
}

fn guesses_before(alloc: Global, guesses: &[Guess], event: u64) -> Result<Vec<Guess>, AllocError>
    ensures { IfOk result (λ made. made.items
        ≡ filter (λ guess. nat_lt guess.event event) guesses.now) }
{
    let mut before = Vec::new(alloc);
    for guess in guesses {
        if guess.event < event {
            before.push(*guess)?;
        }
    }
    Ok(before)
}

// Changes the number of a symbol. A path that the run doesn't list remains unlisted, since the run doesn't read it.
fn put(run: &mut Run, symbol: &SymName, number: i128) -> Result<(), AllocError>
    ensures { OnOk result (IsPut symbol.now number (run_of run.old) (run_of run.new)) }
{
    match symbol {
        SymName::Input(path) => put_input(&mut run.inputs, path, number)?,
        SymName::Guess(event) => put_guess(run.guesses.as_mut_slice(), *event, number),
    }
    Ok(())
}

// Changes the number of a path, if it is listed.
fn put_input(inputs: &mut Inputs, path: &Path, number: i128) -> Result<(), AllocError>
    ensures { OnOk result (IsPutInput path.now number inputs.old inputs.new) }
{
    if lists(inputs, path) {
        inputs.set(path.copy()?, number)?;
    }
    Ok(())
}

// Changes the number of the guess at an event.
fn put_guess(guesses: &mut [Guess], event: u64, number: i128)
    ensures { guesses.new ≡ map (put_guess event number) guesses.old }
{
    for guess in guesses.iter_mut() {
        *guess = other_guess(*guess, event, number);
    }
}

// Returns the guess, with another number if it is at the event.
fn other_guess(guess: Guess, event: u64, number: i128) -> Guess
    ensures { result ≡ put_guess event number guess }
{
    if guess.event == event {
        Guess { event, number }
    } else {
        guess
    }
}
