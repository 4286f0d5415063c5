//! The frames of a run: their things to do, locals and operands, and how they begin.
#![tactic(auto, using(cs_run_log::proofs::Performing::silent))]

pub mod cases;
pub mod frames;
pub mod landing;
pub mod lists;
pub mod operands;
pub mod outside;
pub mod putting;
pub mod rounds;
pub mod starting;
