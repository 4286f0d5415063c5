//! The log of a run, and the operators that show.
#![tactic(auto, using(crate::proofs::Performing::silent))]

pub mod logs;
pub mod operators;

pub use logs::{Log, Pending, Stop, Touch};
