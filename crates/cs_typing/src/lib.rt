//! The typing of files (C11 6.9): functions with their bodies, the parts of a file, and the typed program.
#![tactic(auto)]

mod bodies;
mod file;
mod program;

pub use program::typed;
