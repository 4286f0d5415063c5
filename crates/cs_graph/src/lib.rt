//! The rows of an exploration: each key has one row, and the worklist returns the rows by their visits.
#![tactic(auto)]

mod adding;
mod graph;
mod placing;
mod worklist;

pub use adding::{Added, GraphRefusal};
pub use graph::Graph;
pub use worklist::Worklist;
