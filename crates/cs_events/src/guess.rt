//! Guesses.

/// A number that a run uses in place of an operation's own result at an event.
#[derive(Clone, Copy, PartialEq, Eq, Debug)]
pub struct Guess {
    /// The event's number in the run, from 1.
    pub event: u64,
    pub number: i128,
}
