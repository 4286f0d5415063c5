//! Runs of machines that execute typed programs: operations and what they show, guesses, and how a run ends.
//!
//! The specs define the meaning of programs over these: a step of a machine is an act, and `perform` carries it out in a run.
#![tactic(auto)]

pub mod event;
pub mod guess;
pub mod guess_ranges;
pub mod input;
pub mod operation;
pub mod outcome;
pub mod point;

pub use event::{Event, Label, Wrap};
pub use guess::Guess;
pub use guess_ranges::{guess_range, lies_in, numbers_of, offsets};
pub use input::{InputKind, Lookup};
pub use operation::Operation;
pub use outcome::{Budget, Outcome, Returned, RunBudgets};
pub use point::PointKind;
