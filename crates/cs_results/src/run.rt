//! Runs that are shown, and the other runs that belong to a guess.

use cs_events::Guess;
use cs_inputs::Inputs;

/// The inputs and guesses that a run begins with.
#[derive(Drop)]
pub struct Run {
    pub inputs: Inputs,
    pub guesses: Vec<Guess>,
}

/// One or two others, beside something of the same kind.
#[derive(Clone, Copy, Drop, PartialEq, Eq)]
pub enum Others<T> {
    One(T),
    Two(T, T),
}
