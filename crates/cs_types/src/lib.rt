//! The types of the analyzed program, their layout and the arithmetic of their integers.
#![tactic(auto)]

mod arithmetic;
mod conversions;
mod ctype;
mod data_model;
mod int_type;
mod kinds;
mod layout;
mod members;
mod structs;

pub use arithmetic::{Product, in_range, multiply, quotient, wrap};
pub use conversions::{promote, usual};
pub use ctype::CType;
pub use data_model::{
    DataModel, difference_type, offset_bound, pointer_bytes, product_bound, size_type, start_extent,
};
pub use int_type::{IntType, bytes, is_signed};
pub use kinds::{is_array, is_complete, is_scalar, is_void};
pub use layout::{align, leaf_at, size};
pub use members::{Member, Members};
pub use structs::{StructTable, StructType, Structs, complete_struct, members_of};
