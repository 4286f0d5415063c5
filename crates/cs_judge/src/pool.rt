//! A pool of replayed runs, each of which names other runs of the pool for its guesses.

use cs_ast::Place;
use cs_events::{Event, Operation};
use cs_findings::{Others, Run};

/// What a replay keeps of an event: the operation that was pending there, with its operands, if its result can be guessed.
#[derive(Clone, Copy, PartialEq, Eq)]
pub enum Kept {
    Operates(Place, Operation),
    Other,
}

/// The numbers in the pool of the runs that show a guess to be real.
#[derive(Clone, Copy, PartialEq, Eq)]
pub struct Partners {
    /// The runs with which the guess has a ground.
    pub others: Others<usize>,
    /// For `%` and `&`, if the guessed number can't be a result with the left operand: a run with another left operand.
    pub left: Option<usize>,
    /// The same for the right operand.
    pub right: Option<usize>,
}

/// A run with what its replay kept.
#[derive(Drop)]
pub struct Replay {
    pub run: Run,
    /// The events that it passes first.
    pub events: Vec<Event>,
    /// What was pending at each of the first events.
    pub kept: Vec<Kept>,
    /// Those of each of the run's guesses, in order.
    pub partners: Vec<Partners>,
}
