//! Suspects, as types: the runs that an exploration suspects to have the outcome of an end, with what the witness needs to show them.
#![tactic(auto)]

mod suspect;

pub use suspect::{OperandRange, Suspect, SuspectedGuess};
