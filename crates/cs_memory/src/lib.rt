//! The memory of a run, with loads and stores.
#![tactic(auto, using(cs_run_log::proofs::Performing::silent))]

pub mod access;
pub mod found;
pub mod memory;
pub mod opening;
pub mod writes;
