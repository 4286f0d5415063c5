//! The successors of a state: the states directly after its next events, and its ends.
#![tactic(auto)]

mod children;
mod settled;

pub use children::Children;
