//! How a value is converted to a type, and two values to one type.

use cs_scopes::TypeCode;
use cs_types::{CType, IntType};

/// How a value is converted.
#[derive(Drop)]
pub enum Way<'a> {
    /// It isn't changed.
    Kept,
    /// It is an integer, and is converted to this integer type.
    Integer(IntType),
    /// It is replaced by the null pointer of this type.
    Null(&'a CType),
    /// It is converted to this type.
    Convert(&'a CType),
    /// It can't be converted: the code.
    Refused(TypeCode),
}

/// How two values are converted to one type.
#[derive(Clone, Copy, PartialEq, Eq)]
pub enum Meeting {
    /// Both are integers, which are converted to this type.
    Integers(IntType),
    /// Both already have it.
    Kept,
    /// The right one is a null pointer constant.
    RightNull,
    /// The left one is a null pointer constant.
    LeftNull,
    /// The right one is converted to the left one's type.
    RightConverts,
    /// The left one is converted to the right one's type.
    LeftConverts,
    /// They can't be.
    Refused,
}
