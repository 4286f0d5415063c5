//! What an exploration suspects of an entry.

use cs_events::{Guess, Outcome};
use cs_inputs::Inputs;
use cs_terms::SymName;

/// The symbol of an operand, with the least and the greatest number that it may have when the operation is reached.
#[derive(Drop)]
pub struct OperandRange {
    pub symbol: SymName,
    pub least: i128,
    pub greatest: i128,
}

/// A guess of a suspect, with the symbols of the guessed operation's operands, unless these are constants. The corners of both ranges
/// are the other runs that may show the guess to be real.
#[derive(Drop)]
pub struct SuspectedGuess {
    pub guess: Guess,
    pub left: Option<OperandRange>,
    pub right: Option<OperandRange>,
}

/// A run that is suspected to have an outcome. Nothing needs to be true of it: what can't be shown is dropped.
#[derive(Drop)]
pub struct Suspect {
    pub what: Outcome,
    /// How many events the run passes.
    pub events: u64,
    /// The numbers of the paths that the run reads. A path that isn't listed has 0.
    pub inputs: Inputs,
    /// In the order of their events.
    pub guesses: Vec<SuspectedGuess>,
}
