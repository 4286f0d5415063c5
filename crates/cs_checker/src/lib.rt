//! Checkers: each determines under which conditions an operation is a fault of its kind. The engine holds
//! them boxed, so that a new kind of fault needs only one more box.
#![tactic(auto)]

mod answer;
mod checker;
mod subject;

pub use answer::{Answer, Cond, NO_NUMBER};
pub use checker::{Checker, add, ask_each};
pub use subject::Subject;
