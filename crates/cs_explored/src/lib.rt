//! What an exploration has found: rows, ends and cuts, as they are added, and the number with which a run continues after an event.
#![tactic(auto)]

mod answering;
mod child;
mod explored;
mod findings;
mod visits;
mod watch;

pub use answering::{constant, leads_on};
pub use child::Child;
pub use explored::{End, Explored, Row};
pub use findings::Findings;
pub use watch::{Rule, phase_after};
