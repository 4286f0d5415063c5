//! Lists of words that are written once, word after word, and then compared: as bytes, with a digest.
#![tactic(auto)]

mod bytes;
mod numbers;
mod shared;
mod words;

pub use numbers::one_more;
pub use shared::SharedWords;
pub use words::Words;
