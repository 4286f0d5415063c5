//! The step after the body of a loop (C11 6.8.5), and the numbers of counted points in loops.
ghost use Rattle.std.specs.Prelude.{◌≡◌, ◌+◌, OnOk, IfOk, option_map, option_copied};
ghost use Rattle.cs_ast.specs.TypedView.{typed, statement, statement_list};
ghost use Rattle.cs_meaning.specs.Machine as machine;
ghost use Rattle.cs_meaning.specs.CountedPoints as points;
ghost use Rattle.cs_meaning.specs.Statements as meaning;
ghost use Rattle.cs_run_state.specs.MachineView.{state_of};

use crate::putting::{put_stmt, put_test};
use cs_ast::typed::expression::Expr;
use cs_ast::typed::statement::{Stmt, StmtKind};
use cs_objects::counted_points::{counted_points_in, together};
use cs_run_state::items::{ExprStep, Item, StmtStep};
use cs_run_state::machine::Machine;
use std::alloc::AllocError;

/// Schedules the things to do after the body of a loop.
pub fn go_again<'a>(
    state: &mut Machine<'a>,
    s: &'a Stmt,
    counted_point: u64,
) -> Result<(), AllocError>
    ensures { OnOk result (state_of state.new
        ≡ machine.to_do (meaning.again (statement s.now) counted_point
        (state_of state.old).frame.todo) (state_of state.old)) }
{
    match &*s.kind {
        StmtKind::While(_, _) => put_stmt(state, StmtStep::Turn, s, counted_point),
        StmtKind::Do(_, test) => put_test(state, test, s, counted_point),
        StmtKind::For(_, _, last, _) => {
            put_stmt(state, StmtStep::Turn, s, counted_point)?;
            put_last(state, last.as_ref())
        }
        StmtKind::Block(_) | StmtKind::Declare(_, _) | StmtKind::Run(_) => Ok(()),
        StmtKind::If(_, _) | StmtKind::IfElse(_, _, _) | StmtKind::Switch(_, _, _) => Ok(()),
        StmtKind::Goto(_) | StmtKind::Label(_, _) | StmtKind::Break => Ok(()),
        StmtKind::Continue | StmtKind::Return(_) => Ok(()),
    }
}

// Schedules the last part of a `for`, whose value is dropped.
fn put_last<'a>(state: &mut Machine<'a>, last: Option<&'a Expr>) -> Result<(), AllocError>
    ensures { OnOk result (state_of state.new
        ≡ machine.to_do (meaning.last_part (option_map typed (option_copied last.entry))
        (state_of state.old).frame.todo) (state_of state.old)) }
{
    match last {
        Some(last) => {
            state.put(Item::Discard)?;
            state.put_expr(ExprStep::Evaluate, last)?;
            Ok(())
        }
        None => Ok(()),
    }
}

/// Returns the number of the first counted point of a `for`'s body, which follows its head and its first part.
pub fn point_of_body(counted_point: u64, first: &[Stmt]) -> Result<u64, AllocError>
    ensures { IfOk result (λ inner.
        inner ≡ counted_point + 1 + points.counted_points_in (statement_list first.now)) }
{
    together(together(counted_point, 1)?, counted_points_in(first)?)
}
