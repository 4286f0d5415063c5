//! The replayer: it runs the code of a program on given inputs, operation by operation.
#![tactic(auto, using(cs_run_log::proofs::Performing::silent))]

mod accesses;
mod calls;
mod declared;
mod ends;
mod frames;
mod operands;
mod refusal;
mod replayer;
mod replays;
mod starting;
mod steps;
mod values;
mod ways;
mod working;

pub use refusal::ReplayRefusal;
pub use replays::{Replayed, replay};
