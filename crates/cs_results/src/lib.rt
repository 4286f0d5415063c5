//! Results of an analysis, as types: what is printed about each entry, with the runs that show it.
//!
//! A finding carries its evidence: the run with its outcome, and for each number that the run guesses one or two other runs, which show
//! that the operation's result can't be followed there. `cs_findings` defines when that evidence is good.
#![tactic(auto)]

pub mod budgets;
pub mod finding;
pub mod result;
pub mod run;
pub mod selected;

pub use budgets::Budgets;
pub use finding::{Finding, Ground};
pub use result::{Cut, EntryResult, Verdict};
pub use run::{Others, Run};
pub use selected::{every_kind, is_kind, is_selected, lists_report};
