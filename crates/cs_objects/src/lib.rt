//! A program and its objects, as prepared before it runs.
#![tactic(auto, using(cs_values::proofs::Casts::casts))]

pub mod access;
pub mod blocks;
pub mod counted_points;
pub mod initializers;
pub mod inputs;
pub mod offsets;
pub mod pieces;
pub mod prepared;
pub mod scalars;
pub mod settings;

pub use settings::Setting;
