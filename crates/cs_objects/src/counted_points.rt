//! Counted points: the loop heads and the labels of a body, numbered in file order.
ghost use Rattle.std.specs.Prelude.{◌≡◌, ◌+◌, IfOk};
ghost use Rattle.cs_ast.specs.TypedView.{statement, statement_list};
ghost use Rattle.cs_meaning.specs.CountedPoints as meaning;

use cs_ast::typed::statement::{Stmt, StmtKind};
use std::alloc::AllocError;

/// Returns the number of loop heads and labels in a statement.
#[cycle(counted_points)]
pub fn counted_points(s: &Stmt) -> Result<u64, AllocError>
    ensures { IfOk result (λ count. count ≡ meaning.counted_points (statement s.now)) }
{
    match &*s.kind {
        StmtKind::Block(statements) => counted_points_in(statements),
        StmtKind::Declare(_, _) => Ok(0),
        StmtKind::Run(_) => Ok(0),
        StmtKind::If(_, body) => counted_points(body),
        StmtKind::IfElse(_, body, other) => {
            let first = counted_points(body)?;
            let second = counted_points(other)?;
            together(first, second)
        }
        StmtKind::While(_, body) => {
            let inner = counted_points(body)?;
            together(1, inner)
        }
        StmtKind::Do(body, _) => {
            let inner = counted_points(body)?;
            together(1, inner)
        }
        StmtKind::For(first, _, _, body) => {
            let before = counted_points_in(first)?;
            let inner = counted_points(body)?;
            let head = together(1, before)?;
            together(head, inner)
        }
        StmtKind::Switch(_, _, statements) => counted_points_in(statements),
        StmtKind::Goto(_) => Ok(0),
        StmtKind::Label(_, body) => {
            let inner = counted_points(body)?;
            together(1, inner)
        }
        StmtKind::Break => Ok(0),
        StmtKind::Continue => Ok(0),
        StmtKind::Return(_) => Ok(0),
    }
}

/// Returns their number in consecutive statements.
#[cycle(counted_points)]
pub fn counted_points_in(statements: &[Stmt]) -> Result<u64, AllocError>
    ensures { IfOk result (λ count.
        count ≡ meaning.counted_points_in (statement_list statements.now)) }
{
    let mut count = 0;
    for s in statements {
        let inner = counted_points(s)?;
        count = together(count, inner)?;
    }
    Ok(count)
}

/// Returns the sum of two numbers of counted points.
pub fn together(some: u64, more: u64) -> Result<u64, AllocError>
    ensures { IfOk result (λ all. all ≡ some + more) }
{
    some.checked_add(more).ok_or(AllocError)
}
