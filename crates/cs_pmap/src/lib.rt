//! A persistent map from pairs of numbers: a balanced tree whose parts are shared between copies.
#![tactic(auto)]

mod balance;
mod entries;
mod join;
mod map;
mod merge;
mod tree;
mod update;

pub use entries::Entries;
pub use map::PMap;
