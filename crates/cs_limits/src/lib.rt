//! The limits of a file.
#![tactic(auto)]

/// The greatest number of bytes of a file.
pub const MOST_BYTES: usize = 4_194_304;

/// The greatest number of tokens of a file.
pub const MOST_TOKENS: usize = 400_000;
