//! Written expressions (C11 6.5).

use crate::place::Place;
use crate::raw::name::RawName;
use crate::raw::operator::{AssignOp, InfixOp, PrefixOp, Step};
use crate::raw::written_type::WrittenType;
use crate::token::IntegerConstant;
use cs_names::{Bytes, Name};

/// An expression with its position: that of its operator, or of its first token if it has none.
#[cycle(raw_expression)]
#[derive(Drop)]
pub struct RawExpr {
    pub place: Place,
    pub kind: Box<RawExprKind>,
}

/// The form of a written expression.
#[cycle(raw_expression)]
#[derive(Drop)]
pub enum RawExprKind {
    /// An identifier (C11 6.5.1).
    Name(Name),
    /// An integer constant.
    Number(IntegerConstant),
    /// A character constant.
    Character(i32),
    /// A string literal.
    Text(Bytes),
    /// `( a )`, at the opening parenthesis.
    Parenthesis(RawExpr),
    /// `a [ b ]`, at the bracket (C11 6.5.2.1).
    Index(RawExpr, RawExpr),
    /// `a ( b , .. )`, at the parenthesis (C11 6.5.2.2).
    Call(RawExpr, Vec<RawExpr>),
    /// `a . name`, at the dot (C11 6.5.2.3).
    Member(RawExpr, RawName),
    /// `a -> name`, at the arrow (C11 6.5.2.3).
    Arrow(RawExpr, RawName),
    /// `a ++` or `a --`.
    StepAfter(Step, RawExpr),
    /// `++ a` or `-- a`.
    StepBefore(Step, RawExpr),
    /// A prefix operator with its operand.
    Prefix(PrefixOp, RawExpr),
    /// `sizeof a` (C11 6.5.3.4).
    SizeOf(RawExpr),
    /// `sizeof ( type )` (C11 6.5.3.4), with the bounds of the type's arrays, the outermost first.
    SizeOfType(WrittenType, Vec<RawExpr>),
    /// `( type ) a`, at the opening parenthesis (C11 6.5.4), with the bounds of the type's arrays.
    Cast(WrittenType, Vec<RawExpr>, RawExpr),
    /// An infix operator with its two operands.
    Infix(InfixOp, RawExpr, RawExpr),
    /// `a ? b : c`, at the question mark (C11 6.5.15).
    Choice(RawExpr, RawExpr, RawExpr),
    /// An assignment.
    Assign(AssignOp, RawExpr, RawExpr),
    /// `a , b` (C11 6.5.17).
    Comma(RawExpr, RawExpr),
}
