//! Definitions of the successors of a state, compared with the runs that have reached it: the states directly after its next events, and
//! its ends.
#![tactic(auto)]

mod exploration;

pub use exploration::Exploration;
