//! The analyzer as one call: from a command line and bytes to a text and a status.
#![tactic(auto)]

mod analysis;
mod app;
mod command;
mod file;
mod generated;
mod laws;

pub use app::csa;
pub use cs_answers::Status;
pub use laws::{refused_is_not_accepted, trees_are_refused_by_types};
