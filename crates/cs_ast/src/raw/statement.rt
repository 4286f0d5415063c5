//! Written statements (C11 6.8).

use crate::place::Place;
use crate::raw::declaration::{RawInit, RawSpecs};
use crate::raw::expression::RawExpr;
use cs_names::Name;

/// A statement, at the position of its first token.
#[cycle(raw_statement)]
#[derive(Drop)]
pub struct RawStmt {
    pub place: Place,
    pub kind: Box<RawStmtKind>,
}

/// The form of a written statement.
#[cycle(raw_statement)]
#[derive(Drop)]
pub enum RawStmtKind {
    /// `{ .. }` (C11 6.8.2).
    Block(Vec<RawItem>),
    /// Only `;`.
    Empty,
    /// `a ;` (C11 6.8.3).
    Run(RawExpr),
    /// `if ( a ) s` (C11 6.8.4.1).
    If(RawExpr, RawStmt),
    /// `if ( a ) s else t`.
    IfElse(RawExpr, RawStmt, RawStmt),
    /// `while ( a ) s` (C11 6.8.5.1).
    While(RawExpr, RawStmt),
    /// `do s while ( a ) ;` (C11 6.8.5.2).
    Do(RawStmt, RawExpr),
    /// `for ( f ; a ; b ) s` (C11 6.8.5.3).
    For(RawFirst, Option<RawExpr>, Option<RawExpr>, RawStmt),
    /// `switch ( a ) { .. }` (C11 6.8.4.2).
    Switch(RawExpr, Vec<RawSwitchItem>),
    /// `goto name ;` (C11 6.8.6.1).
    Goto(Name),
    /// `continue ;`
    Continue,
    /// `break ;`
    Break,
    /// `return ;` or `return a ;`
    Return(Option<RawExpr>),
    /// `name : s` (C11 6.8.1), at the name.
    Label(Name, RawStmt),
}

/// An item of a block: a declaration or a statement.
#[cycle(raw_statement)]
#[derive(Drop)]
pub enum RawItem {
    /// A declaration of at least one object, each with its initializer.
    Declare(RawSpecs, Vec<RawInit>),
    /// A statement.
    Run(RawStmt),
}

/// An item between the braces of a `switch`.
#[cycle(raw_statement)]
#[derive(Drop)]
pub enum RawSwitchItem {
    /// `case a :`, at the keyword.
    Case(Place, RawExpr),
    /// `default :`, at the keyword.
    Default(Place),
    /// An item that any block may have.
    Item(RawItem),
}

/// The first part of a `for`, before its first `;`.
#[derive(Drop)]
pub enum RawFirst {
    /// Nothing.
    Empty,
    /// An expression.
    Run(RawExpr),
    /// A declaration.
    Declare(RawSpecs, Vec<RawInit>),
}
