//! Vocabulary of the whole program: the kinds of faults, the standing of objects, and the text of a source position.
#![tactic(auto)]

pub mod kind;
pub mod standing;

pub use kind::Kind;
pub use standing::{Freeable, Standing};
