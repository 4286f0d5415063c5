//! What a path assumes about its symbols: the numbers that each symbol may have.
#![tactic(auto)]

mod constraints;
mod numbers;
mod prepared;

pub use constraints::Constraints;
