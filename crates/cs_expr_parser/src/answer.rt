//! The levels that callers of the expression parser request, and its result.

use cs_ast::raw::expression::RawExpr;
use cs_grammar::Reason;

/// The levels of expressions that other phrases contain.
#[derive(Clone, Copy)]
pub enum ExprLevel {
    /// Expressions, with commas between them (C11 6.5.17).
    Expr,
    /// Assignment expressions: those without a comma (C11 6.5.16).
    Assign,
    /// Conditional expressions: those without an assignment (C11 6.5.15).
    Cond,
}

/// An expression that tokens begin with.
#[derive(Drop)]
pub struct Phrase {
    pub tree: RawExpr,
    /// The height of the tree.
    pub height: u32,
    /// The index of the token after the expression.
    pub next: usize,
    /// Why the token after the expression is refused, if the caller can't continue with it either.
    pub otherwise: Reason,
}
