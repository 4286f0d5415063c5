//! The state of a run: operations of expressions on their operands, stores to locals, allocations and releases, counts of visits.
#![tactic(auto, using(cs_run_log::proofs::Performing::silent))]

mod choosing;
mod evaluating;
mod heap;
pub mod items;
mod locals;
pub mod machine;
mod returning;
mod updates;
mod visits;
