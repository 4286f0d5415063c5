//! Operators and pointers, with the checks that come before them.
#![tactic(auto)]

mod attempt;
pub mod computing;
pub mod operators;
pub mod pointers;

pub use attempt::Attempt;
