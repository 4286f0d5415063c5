//! How numbers compare with 0: the numbers that satisfy a comparison, the others, and whether the ends of an
//! interval decide it.
#![tactic(auto)]

mod ends;
mod sets;

pub use ends::sign_between;
pub use sets::{BySign, by_sign};
