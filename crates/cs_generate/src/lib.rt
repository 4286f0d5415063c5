//! Files of C that are generated from two numbers, to test the analysis with.
#![tactic(auto)]

mod file;
mod template;

pub use file::generate_text;
