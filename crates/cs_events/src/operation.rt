//! Operations whose results show as events.

use crate::event::Label;
use cs_ast::typed::operator::{BinOp, CmpOp, UnOp};
use cs_types::IntType;

/// An operation with its operands.
#[derive(Clone, Copy, PartialEq, Eq, Debug)]
pub enum Operation {
    /// A binary integer operator, computed in a type (C11 6.5.5 to 6.5.7, 6.5.10 to 6.5.12).
    Binary(BinOp, IntType, i128, i128),
    /// A unary integer operator, computed in a type (C11 6.5.3.3).
    Unary(UnOp, IntType, i128),
    /// A conversion to an integer type (C11 6.3.1.3).
    Convert(IntType, i128),
    /// A comparison of two integers, or of the offsets of two pointers into one object (C11 6.5.8, 6.5.9).
    Compare(CmpOp, i128, i128),
    /// An order test: whether the sum of two parts is at least 0. The first part comes from an offset. The test checks the bounds of an access
    /// or of pointer arithmetic (C11 6.5.6, paragraph 8).
    Order(i128, i128),
    /// The order test of `calloc`: whether the number of elements times their size is at most the largest size of an allocation.
    Product(i128, i128),
    /// The offset of a pointer after adding a number of elements of a size in bytes (C11 6.5.6, paragraph 8).
    Sum(i128, i128, u64),
    /// The difference of two offsets, in elements of a size in bytes (C11 6.5.6, paragraph 9).
    Difference(i128, i128, u64),
    /// A label that shows as it is, and can't be guessed.
    Show(Label),
}
