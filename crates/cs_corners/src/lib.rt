//! Corners: valuations that are the ground to guess the result of an operation that isn't followed exactly.
//! Definitions and laws.
#![tactic(auto)]

pub mod laws;
