//! The exploration of an entry: all states that its runs reach, how they end, and where the exploration was cut.
#![tactic(auto)]

mod engine;
mod entry;
mod numbering;

pub use cs_successors::Exploration;
pub use engine::explore;
pub use numbering::have_each_once;
