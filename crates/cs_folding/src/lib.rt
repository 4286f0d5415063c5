//! Constant expressions (C11 6.6): their exact numbers, null pointers, and addresses.
#![tactic(auto)]

mod addresses;
mod arithmetic;
mod folding;

pub use addresses::{is_address, is_number};
pub use folding::{is_null, is_null_cast, number_in};
