//! The steps of a reference interpreter, which runs a typed program as the reference machine does, step by step.
#![tactic(auto, using(cs_run_log::proofs::Performing::silent))]

mod acting;
mod declarations;
mod fetching;
mod jumps;
mod loops;
mod runs;
mod statements;
mod steps;
mod switches;

pub use runs::{Ended, run};
