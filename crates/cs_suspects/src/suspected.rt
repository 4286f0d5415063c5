//! The runs that are suspected.
ghost use Rattle.std.specs.Prelude.{IfOk};
ghost use Rattle.cs_state.specs.Naming.{naming};
ghost use Rattle.cs_suspects.specs.Suspected.{IsSuspectOf, AreSuspectsOf, AreAllSuspected};
ghost use Rattle.cs_suspects.specs.Solved.{IsGuessOf, AreGuessesOf};

use crate::choosing::chosen;
use crate::numbers::{have_numbers, inputs_of, number_of, operand_range};
use cs_events::Guess;
use cs_explored::{End, Explored};
use cs_state::{Asked, State, Tables};
use cs_suspect_types::{Suspect, SuspectedGuess};
use std::alloc::{AllocError, Global};

/// Returns the suspects of an exploration.
pub fn suspects(alloc: Global, explored: &Explored) -> Result<Vec<Suspect>, AllocError>
    ensures each { IfOk result (λ suspects. AreSuspectsOf (naming explored.now.tables)
        explored.now.ends.items suspects.items) }
    ensures all { IfOk result (λ suspects.
        AreAllSuspected explored.now.ends.items suspects.items) }
{
    let mut suspects = Vec::new(alloc);
    let numbers = chosen(alloc, &explored.ends)?;
    for number in &numbers {
        if let Some(end) = explored.ends.get(*number) {
            suspects.push(suspect(alloc, end, &explored.tables)?)?;
        }
    }
    Ok(suspects)
}

/// Returns the run that is suspected to have the outcome of an end: its symbols have the numbers of least absolute value that the end allows.
pub fn suspect(alloc: Global, end: &End, tables: &Tables) -> Result<Suspect, AllocError>
    ensures of_end { IfOk result (λ suspect.
        IsSuspectOf (naming tables.now) end.now suspect) }
{
    have_numbers(&end.state.constraints)?;
    let inputs = inputs_of(alloc, &*end.state, tables)?;
    let guesses = guesses_of(alloc, &*end.state, tables)?;
    Ok(Suspect {
        what: end.outcome,
        events: end.state.counters.events,
        inputs,
        guesses,
    })
}

// Returns the guesses of a state, in the order of their events.
fn guesses_of(
    alloc: Global,
    state: &State,
    tables: &Tables,
) -> Result<Vec<SuspectedGuess>, AllocError>
    ensures { IfOk result (λ guesses. AreGuessesOf (naming tables.now)
        state.now.constraints state.now.asked guesses.items) }
{
    let mut guesses = Vec::new(alloc);
    for (_, asked) in state.asked.iter()? {
        guesses.push(suspected_guess(state, tables, asked)?)?;
    }
    Ok(guesses)
}

fn suspected_guess(
    state: &State,
    tables: &Tables,
    asked: &Asked,
) -> Result<SuspectedGuess, AllocError>
    ensures { IfOk result (IsGuessOf (naming tables.now) state.now.constraints asked.now) }
{
    let left = operand_range(tables, asked.left, asked.ends.left)?;
    let right = operand_range(tables, asked.right, asked.ends.right)?;
    Ok(SuspectedGuess {
        guess: Guess {
            event: asked.event,
            number: number_of(state, asked.guess),
        },
        left,
        right,
    })
}
