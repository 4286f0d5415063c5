//! Objects of a state, and what their cells hold.
#![tactic(auto)]

pub mod cells;
pub mod inputs;
mod integers;
pub mod objects;
pub mod structs;
