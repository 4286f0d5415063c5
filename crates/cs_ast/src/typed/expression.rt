//! Typed expressions (C11 6.5).

use crate::place::Place;
use crate::typed::operator::{Allocator, BinOp, CmpOp, Direction, Gives, Order, UnOp};
use cs_types::{CType, IntType};

/// An expression with its type, at the position of its operator, or of its first token if it has none. An implicit
/// conversion has the position of what requires it.
#[cycle(typed_expression)]
#[derive(Drop)]
pub struct Expr {
    pub place: Place,
    pub ty: CType,
    pub kind: Box<ExprKind>,
}

/// The form of an expression. Those from `Text` to `Arrow` are lvalues: their value is the location of an object.
#[cycle(typed_expression)]
#[derive(Drop)]
pub enum ExprKind {
    /// An integer constant, or any other constant expression of an integer type.
    Number(i128),
    /// The null pointer.
    Null,
    /// The object of a string literal, by the literal's number in the program.
    Text(u32),
    /// The object that a declaration of the running function names, by the declaration's number.
    Local(u32),
    /// The object that a file-scope declaration names, by its number in the program.
    Global(u32),
    /// The object that a pointer points to (C11 6.5.3.2).
    Through(Expr),
    /// The element of an array, from a pointer to the first element and a number (C11 6.5.2.1).
    Index(Expr, Expr, Order),
    /// The member of an object at this offset in bytes (C11 6.5.2.3).
    Member(Expr, u64),
    /// The same, of the object that a pointer points to.
    Arrow(Expr, u64),
    /// The value that an object holds (C11 6.3.2.1, paragraph 2).
    Load(Expr),
    /// The pointer to an object (C11 6.5.3.2).
    Address(Expr),
    /// The pointer to the first element of an array (C11 6.3.2.1, paragraph 3).
    Decay(Expr),
    /// A conversion to the expression's type (C11 6.3).
    Convert(Expr),
    /// An arithmetic operator on one integer.
    Unary(UnOp, Expr),
    /// 1 if the operand is 0 or null, else 0 (C11 6.5.3.3, paragraph 5).
    Not(Expr),
    /// An arithmetic operator on two integers.
    Binary(BinOp, Expr, Expr),
    /// A comparison of two integers or two pointers, with the result 1 or 0.
    Compare(CmpOp, Expr, Expr),
    /// A pointer moved by a number of elements (C11 6.5.6, paragraph 8).
    Sum(Expr, Expr, Direction, Order),
    /// How many elements lie between two pointers (C11 6.5.6, paragraph 9).
    Difference(Expr, Expr),
    /// `&&` (C11 6.5.13).
    And(Expr, Expr),
    /// `||` (C11 6.5.14).
    Or(Expr, Expr),
    /// `?:` (C11 6.5.15).
    Choice(Expr, Expr, Expr),
    /// The comma operator (C11 6.5.17).
    Comma(Expr, Expr),
    /// `=`: the object and its new value (C11 6.5.16.1).
    Assign(Expr, Expr),
    /// A compound assignment or an increment or decrement of an integer: the operator works in this type (C11 6.5.16.2,
    /// 6.5.2.4).
    Update(BinOp, Expr, Expr, IntType, Gives),
    /// The same for a pointer, which moves by a number of elements.
    Move(Expr, Expr, Direction, Gives),
    /// A call of a function, by its number in the program (C11 6.5.2.2).
    Call(u32, Vec<Expr>),
    /// A call of `malloc` or `calloc` for elements of a type.
    Allocate(Allocator, Vec<Expr>, CType),
    /// A call of `free`.
    Free(Expr),
}
