//! The next step of the operation in progress of a state.
#![tactic(auto)]

mod access;
mod calls;
mod ends;
mod heap;
mod next;
mod updates;
mod work;

pub use next::proceed;
