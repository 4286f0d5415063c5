//! The answers of the commands: the flow of a program, the outcome of a replay, the results of an analysis, the line of a refusal.
#![tactic(auto)]

mod flows;
mod refusals;
mod replay;
mod results;

pub use flows::flow;
pub use refusals::{refused, refused_length};
pub use replay::{refused_entry, replayed};
pub use results::{results_answer, results_status};
