//! Questions of the exploration about the terms of a state.

use cs_ast::typed::operator::{BinOp, CmpOp, UnOp};
use cs_terms::Lin;
use cs_types::IntType;

/// An operation whose operands are terms. Under each valuation it is an operation of the run.
#[derive(Clone, Copy)]
pub enum Question {
    /// An operator of two integers, in a type (C11 6.5.5 to 6.5.7, 6.5.10 to 6.5.12).
    Binary(BinOp, IntType, Lin, Lin),
    /// An operator of one integer, in a type (C11 6.5.3.3).
    Unary(UnOp, IntType, Lin),
    /// A conversion to an integer type (C11 6.3.1.3).
    Convert(IntType, Lin),
    /// A comparison of two integers, or of two offsets in one object (C11 6.5.8, 6.5.9).
    Compare(CmpOp, Lin, Lin),
    /// An order test: whether the sum of two parts isn't below 0. The first part is that of an offset.
    Order(Lin, Lin),
    /// The order test of `calloc`: whether the product of a number of elements and their size is within the bound.
    Product(Lin, Lin),
    /// An offset moved by a number of elements of a size (C11 6.5.6, paragraph 8).
    Sum(Lin, Lin, u64),
    /// The number of elements of a size between two offsets (C11 6.5.6, paragraph 9).
    Difference(Lin, Lin, u64),
    /// Whether a number isn't 0, shown as this kind of label.
    Test(Tested, Lin),
    /// The called function, which is shown.
    Callee(u32),
}

/// The kind of label that shows whether a number isn't 0.
#[derive(Clone, Copy, PartialEq, Eq, Debug)]
pub enum Tested {
    /// A pointer whose target is determined: it isn't null.
    Look,
    /// A branch: its first edge is taken.
    Branch,
    /// A truth.
    Truth,
    /// The opposite truth, as of `!`.
    Not,
    /// An allocation: it returns a block.
    Alloc,
}
