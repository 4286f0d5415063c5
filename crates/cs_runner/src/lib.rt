//! A run of the reference interpreter in progress, and what runs by syntax and runs by code share: calls, allocations, counted points.
#![tactic(auto, using(cs_run_log::proofs::Performing::silent))]

mod allocations;
mod calls;
pub mod runner;
mod visits;
