//! The events of a run: the operations whose results are recorded.

use cs_ast::Place;

/// An event: its source position, and what it shows.
#[derive(Clone, Copy, PartialEq, Eq, Debug)]
pub struct Event {
    pub place: Place,
    pub label: Label,
}

/// What an event shows.
#[derive(Clone, Copy, PartialEq, Eq, Debug)]
pub enum Label {
    /// The result of a comparison or of an order test.
    Truth(bool),
    /// The branch that a test takes.
    Branch(bool),
    /// The number of the case that a `switch` takes, among those with a value, or their count if none of them is taken.
    Case(u32),
    /// By how much the exact result of an operator is outside its type.
    Wrap(Wrap),
    /// Whether a pointer isn't null.
    Look(bool),
    /// The offset of an access, modulo 2^64.
    Offset(u64),
    /// The function that is called.
    Callee(u32),
    /// Whether an allocation returns a block.
    Alloc(bool),
}

/// The wrap quotient of an exact result: how many times wrapping subtracts 2^n from it, for a type of n bits.
#[derive(Clone, Copy, PartialEq, Eq, Debug)]
pub enum Wrap {
    /// The quotient is -1.
    Under,
    /// The quotient is 0: the type holds the exact result.
    Same,
    /// The quotient is 1.
    Past,
    /// The quotient is any other number.
    Far,
    /// The run lists a guess at the event.
    Guessed,
}
