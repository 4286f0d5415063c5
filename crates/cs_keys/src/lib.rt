//! Keys of states: two states have equal keys exactly if their live parts are equal, so that an exploration
//! continues from only one of them.
#![tactic(auto)]

mod compared;
mod frames;
pub mod laws;
mod memory;
mod state;
mod terms;
mod word_list;

pub use state::key;
pub use word_list::Key;
