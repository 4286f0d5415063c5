//! Suspects of an exploration: which of its ends the witness is to show, and with which runs.
#![tactic(auto)]

mod choosing;
mod cuts;
mod numbers;
mod suspected;

pub use choosing::chosen;
pub use cuts::listed;
pub use suspected::{suspect, suspects};
