//! Findings and the grounds of their guesses.

use crate::run::{Others, Run};
use cs_ast::Place;
use cs_events::{Event, Guess, Outcome};

/// Why a number may be guessed: together with the finding's run, the other runs show that the operation's result can't be followed.
#[derive(Drop)]
pub struct Ground {
    pub guess: Guess,
    /// The position of the guess's event.
    pub place: Place,
    pub others: Others<Run>,
}

/// A run that ends in a fault or exceeds a budget, with the grounds of its guesses.
#[derive(Drop)]
pub struct Finding {
    /// How the run ends.
    pub what: Outcome,
    pub run: Run,
    /// One ground for each guess of the run, in order.
    pub grounds: Vec<Ground>,
    /// The events that the run passes.
    pub events: Vec<Event>,
}
