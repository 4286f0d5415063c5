//! The analysis of an entry: exploration, suspects, and what is shown of them.
#![tactic(auto)]

mod entry;

pub use entry::{Analysis, analyze};
