//! Base regions: the objects that pointers point to, their memory spaces, and their numbers.
#![tactic(auto)]

mod base;
mod table;

pub use base::{Base, Space, space_of};
pub use table::BaseTable;
