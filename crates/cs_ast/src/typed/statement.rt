//! Typed statements (C11 6.8).

use crate::place::Place;
use crate::typed::expression::Expr;
use cs_names::Bytes;

/// A statement, at the position of its first token; a declaration is at its `=`, or at its name if it has none.
#[cycle(typed_statement)]
#[derive(Drop)]
pub struct Stmt {
    pub place: Place,
    pub kind: Box<StmtKind>,
}

/// The form of a statement.
#[cycle(typed_statement)]
#[derive(Drop)]
pub enum StmtKind {
    /// Statements one after another (C11 6.8.2).
    Block(Vec<Stmt>),
    /// A declaration of an object, by the object's number in the function, with its initializer (C11 6.7.9).
    Declare(u32, Option<Initial>),
    /// An expression whose value is discarded (C11 6.8.3).
    Run(Expr),
    /// `if` without `else` (C11 6.8.4.1).
    If(Expr, Stmt),
    /// `if` with `else`.
    IfElse(Expr, Stmt, Stmt),
    /// `while` (C11 6.8.5.1).
    While(Expr, Stmt),
    /// `do` (C11 6.8.5.2).
    Do(Stmt, Expr),
    /// `for`: its first part, its test, its last part and its body (C11 6.8.5.3).
    For(Vec<Stmt>, Option<Expr>, Option<Expr>, Stmt),
    /// `switch`: its value, its cases, and the statements between its braces (C11 6.8.4.2).
    Switch(Expr, Vec<Case>, Vec<Stmt>),
    /// `goto`, by the number of the label in the function (C11 6.8.6.1).
    Goto(u32),
    /// A label with its number (C11 6.8.1).
    Label(u32, Stmt),
    /// `break` (C11 6.8.6.3).
    Break,
    /// `continue` (C11 6.8.6.2).
    Continue,
    /// `return` (C11 6.8.6.4).
    Return(Option<Expr>),
}

/// A label of a `switch`.
#[derive(Clone, Copy, Debug, PartialEq, Eq)]
pub struct Case {
    /// The number of the `case`; none for `default`.
    pub value: Option<i128>,
    /// The index, from 0, of the first statement after the label, or the number of statements if none is after it.
    pub item: u32,
}

/// An initializer (C11 6.7.9).
#[cycle(initial)]
#[derive(Drop)]
pub enum Initial {
    /// A value.
    Value(Expr),
    /// The initializers of elements or members, in order; what isn't listed is zero.
    List(Vec<Initial>),
    /// The bytes of a string literal.
    Text(Bytes),
}
