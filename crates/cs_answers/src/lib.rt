//! The output of a run of the program, and how the run ends.
#![tactic(auto)]

mod answer;
mod status;

pub use answer::{Answer, Failure};
pub use status::Status;
