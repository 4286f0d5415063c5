//! Names and texts: owned lists of bytes, which are lists of numbers in contracts.
#![tactic(auto)]

mod bytes;

pub use bytes::{Bytes, Name};
