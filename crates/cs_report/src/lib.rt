//! The text of an analysis, of a replayed run, and of a refused file, as the program prints it.
//!
//! `text` and `json` print the results of an analysis; `summary` counts them.
#![tactic(auto)]

mod counts;
mod cut;
mod entry;
mod finding;
mod ground;
mod json_entry;
mod json_finding;
mod json_ground;
mod refusal;
mod replayed;

pub use counts::summary;
pub use entry::text;
pub use json_entry::json;
pub use refusal::append_refusal;
pub use replayed::append_replayed;
