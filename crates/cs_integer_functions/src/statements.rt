//! Statements of integer functions.
ghost use Rattle.std.specs.Prelude.{◌≡◌, ◌&&◌, option_map};
ghost use Rattle.cs_ast.specs.TypedView.{initial, some_typed, statement, statement_list};
ghost use Rattle.cs_integer_functions.specs.IntegerFunctions as definition;

use crate::expressions::{is_integer, is_integer_if_any};
use cs_ast::typed::expression::Expr;
use cs_ast::typed::statement::{Initial, Stmt, StmtKind};

/// Whether a statement has only expressions of integer functions.
#[cycle(statements)]
pub fn is_integer_statement(s: &Stmt) -> bool
    ensures { result ≡ definition.is_integer_statement (statement s.now) }
{
    match &*s.kind {
        StmtKind::Block(statements) => are_integer_statements(statements),
        StmtKind::Declare(_, first) => is_integer_initial(first),
        StmtKind::Run(e) => is_integer(e),
        StmtKind::If(test, body) | StmtKind::While(test, body) => {
            is_integer(test) && is_integer_statement(body)
        }
        StmtKind::IfElse(test, body, other) => {
            is_integer(test) && is_integer_statement(body) && is_integer_statement(other)
        }
        StmtKind::Do(body, test) => is_integer_statement(body) && is_integer(test),
        StmtKind::For(first, test, last, body) => {
            let before = are_integer_statements(first);
            let inside = is_integer_statement(body);
            all_hold(before, inside, are_integers(test, last))
        }
        StmtKind::Switch(value, _, statements) => {
            let inside = are_integer_statements(statements);
            all_hold(is_integer(value), inside, true)
        }
        StmtKind::Label(_, body) => is_integer_statement(body),
        StmtKind::Return(value) => is_integer_if_any(value),
        StmtKind::Goto(_) | StmtKind::Break | StmtKind::Continue => true,
    }
}

// The same for a list of statements.
#[cycle(statements)]
fn are_integer_statements(statements: &[Stmt]) -> bool
    ensures { result ≡ definition.are_integer_statements (statement_list statements.now) }
{
    for s in statements {
        if !is_integer_statement(s) {
            return false;
        }
    }
    true
}

// The same for the test and the last part of a `for`.
fn are_integers(test: &Option<Expr>, last: &Option<Expr>) -> bool
    ensures { result ≡ (definition.is_integer_if_any (some_typed test.now)
        && definition.is_integer_if_any (some_typed last.now)) }
{
    is_integer_if_any(test) && is_integer_if_any(last)
}

fn all_hold(one: bool, other: bool, third: bool) -> bool
    ensures { result ≡ (one && (other && third)) }
{
    one && other && third
}

// The same for what a local holds at first: nothing, or a value.
fn is_integer_initial(first: &Option<Initial>) -> bool
    ensures { result ≡ definition.is_integer_initial (option_map initial first.now) }
{
    match first {
        None => true,
        Some(Initial::Value(e)) => is_integer(e),
        Some(Initial::List(_)) | Some(Initial::Text(_)) => false,
    }
}
