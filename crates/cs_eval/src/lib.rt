//! Operations on terms: the labels that they may show, and for which numbers of the symbols.
#![tactic(auto)]

mod cases;
mod checked;
mod guesses;
mod halves;
mod integers;
mod operands;
mod operations;
mod piece;
mod pieces;
mod pointers;
mod question;
mod setting;
mod tested;
mod truths;
mod wraps;

pub use cases::select;
pub use operations::answers;
pub use piece::{Guessed, Piece};
pub use question::{Question, Tested};
