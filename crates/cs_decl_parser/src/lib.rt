//! The parser of files: tokens to declarations, statements and functions, exact to the token that is refused.
#![tactic(auto)]

mod block;
mod branches;
mod external;
mod externals;
mod file;
mod form;
mod laws;
mod loops;
mod nodes;
mod reason;
mod statement;

pub use file::parse;
pub use laws::{files_are_not_refused, refusals_are_one};
