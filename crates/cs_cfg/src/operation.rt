//! The operations of the code.

use cs_ast::Place;
use cs_ast::typed::operator::{Allocator, BinOp, CmpOp, Direction, Gives, Order, UnOp};
use cs_events::PointKind;
use cs_names::Bytes;
use cs_types::{CType, IntType};

/// An operation. Its operands are the temporaries from its number on, in the order in which they were
/// evaluated; its results replace them. Temporaries with greater numbers are dropped.
#[derive(Drop)]
pub struct Operation {
    pub place: Place,
    pub temporary: u32,
    pub work: Work,
}

/// What an operation does. Where it checks and then passes an event, both are one step of the code.
#[derive(Drop)]
pub enum Work {
    /// A number.
    Number(i128),
    /// The null pointer.
    Null,
    /// The lvalue of a string literal.
    Text(u32),
    /// The lvalue of a local of the frame.
    Local(u32),
    /// The lvalue of a file-scope object.
    Global(u32),
    /// No value: the result of a `return` without an expression.
    Nothing,
    /// A pointer plus or minus a number of elements of a size in bytes (C11 6.5.2.1, 6.5.6).
    Sum(u64, Direction, Order),
    /// The lvalue at a byte offset from an lvalue (C11 6.5.2.3).
    Member(u64),
    /// The same from a pointer.
    Arrow(u64),
    /// The value of the object that the operand designates (C11 6.3.2.1).
    Load(Access),
    /// A conversion from one type to another (C11 6.3).
    Convert(CType, CType),
    /// A unary integer operator, in a type (C11 6.5.3.3).
    Unary(UnOp, IntType),
    /// `!` (C11 6.5.3.3).
    Not,
    /// A binary integer operator, in a type (C11 6.5.5 to 6.5.7, 6.5.10 to 6.5.12).
    Binary(BinOp, IntType),
    /// A comparison (C11 6.5.8, 6.5.9).
    Compare(CmpOp),
    /// The difference of two pointers, in elements of a size in bytes (C11 6.5.6).
    Difference(u64),
    /// The truth value of the right operand of `&&` or `||` (C11 6.5.13, 6.5.14).
    Judge,
    /// A store of the second operand in the first one (C11 6.5.16.1).
    Store(Access),
    /// The load of an update of a number: after the lvalue, it pushes the value, and the value converted to the operator's type.
    FetchNumber(Access, IntType),
    /// An update: the operands are the lvalue, the old value, the same in the operator's type, and the right operand.
    Update(BinOp, Access, IntType, Gives),
    /// The load of an update of a pointer: after the lvalue, it pushes the value.
    FetchPointer(Access),
    /// An update of a pointer: the operands are the lvalue, the old value, and the number of elements of a size in bytes.
    Move(Access, u64, Direction, Gives),
    /// A call of a function, with a number of arguments (C11 6.5.2.2).
    Call(u32, u32),
    /// A call of `malloc` or `calloc`, whose block has elements of a type (C11 7.22.3).
    Allocate(Allocator, CType),
    /// A call of `free` (C11 7.22.3.3).
    Free,
    /// The result of a call is used, so it must have been set (C11 6.9.1).
    Use,
    /// The operand is dropped.
    Drop,
    /// A local becomes unset. This is a touch if the local is a scalar.
    Clear(u32, bool),
    /// A local becomes zero, before the pieces of its initializer are stored (C11 6.7.9).
    Zero(u32),
    /// The operand is stored in a local, at an offset, as a value of a type. This is a touch if the local is a scalar.
    StoreLocal(u32, u64, CType, bool),
    /// Bytes are stored in a local, from an offset on.
    Spell(u32, u64, Bytes),
    /// The run reaches a control point: the beginning of a function's body, or a `return`.
    Meet(PointKind),
    /// The run reaches the end of a function's body, which returns nothing, or an unset value.
    Close(bool),
}

/// An object as a load or a store accesses it: the position of the expression that designates it, its type, whether it is accessed
/// without a check, and its declaration if it is a scalar local.
#[derive(Drop)]
pub struct Access {
    pub place: Place,
    pub ty: CType,
    pub direct: bool,
    pub local: Option<u32>,
}
