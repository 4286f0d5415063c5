//! The things to do in a frame.

use cs_ast::Place;
use cs_ast::typed::expression::Expr;
use cs_ast::typed::statement::Stmt;
use cs_objects::blocks::BlockType;
use cs_types::CType;

/// A thing to do.
#[derive(Clone, Copy)]
pub enum Item<'a> {
    /// A step of an expression.
    Expression(ExprStep, &'a Expr),
    /// A step of a statement, with the number of its first counted point in the function's body: loop heads and labels are counted points,
    /// numbered in file order.
    Statement(StmtStep, &'a Stmt, u64),
    /// Make the right operand of `&&` or `||` a truth value.
    Judge(Place),
    /// Check that the result of a call, which is used, was set.
    Use(Place),
    /// Drop a value.
    Discard,
    /// Store the newest value, of a type, in a declared object at an offset.
    Store(Place, u32, u64, &'a CType),
    /// Store bytes in a declared object from an offset on.
    Spell(u32, u64, &'a [u8]),
    /// Execute an empty block, which represents the body of a function without one.
    Pass(Place),
    /// Where `break` leads.
    Out,
    /// Begin a function's body.
    Begin(Place),
    /// Reach the end of the body of a function with this result type.
    End(Place, BlockType<'a>),
    /// Return with the newest value.
    Give(Place),
    /// End the frame with the newest value.
    Leave,
}

/// The steps of an expression.
#[derive(Clone, Copy)]
pub enum ExprStep {
    Evaluate,
    /// Evaluate an expression whose value is dropped or converted to `void`.
    EvaluateUnused,
    /// Apply its operation to its operands, which are on the stack.
    Act,
    /// Load the object of an update, whose lvalue is on the stack.
    Fetch,
    /// Take the branch that the first operand of `&&`, `||` or `?:`, which is on the stack, selects.
    Choose,
}

/// The steps of a statement.
#[derive(Clone, Copy)]
pub enum StmtStep {
    Execute,
    /// Take the branch that its test, or the value of a `switch`, selects.
    Decide,
    /// Reach the head of a loop.
    Turn,
    /// After the body of a loop; `continue` leads here.
    Again,
}
