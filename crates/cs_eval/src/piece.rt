//! Pieces: parts of the valuations that fit a state.

use cs_constraints::Constraints;
use cs_events::Label;
use cs_state::{Asks, Ends, Fact};
use cs_terms::Lin;

/// A label that an operation may show, with the valuations under which it does.
#[derive(Drop)]
pub struct Piece {
    pub label: Label,
    /// The constraints that these valuations fit. If a number was guessed, they declare the guess symbol too.
    pub constraints: Constraints,
    /// The number with which the operation continues.
    pub answer: Lin,
    /// The guess, if the result isn't followed exactly.
    pub guessed: Option<Guessed>,
}

/// An operation that was guessed.
#[derive(Clone, Copy)]
pub struct Guessed {
    pub asks: Asks,
    /// The operands, as terms before the event.
    pub left: Lin,
    pub right: Lin,
    pub ends: Ends,
    /// Present for a guessed comparison, and for an order test other than that of `calloc`.
    pub fact: Option<Fact>,
}
