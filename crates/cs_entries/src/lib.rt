//! The function that a command line names.
#![tactic(auto)]

mod entry;

pub use entry::{entry_of, number_of};
