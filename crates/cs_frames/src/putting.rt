//! Schedules statements before the other things to do.
ghost use Rattle.std.specs.Prelude.{◌≡◌, ◌∷◌, OnOk};
ghost use Rattle.cs_ast.specs.TypedView.{typed, statement, statement_list};
ghost use Rattle.cs_meaning.specs.Jumps as jumps;
ghost use Rattle.cs_meaning.specs.Machine as machine;
ghost use Rattle.cs_run_state.specs.MachineView.{state_of, statement_item};

use crate::lists::put_statements;
use cs_ast::typed::expression::Expr;
use cs_ast::typed::statement::Stmt;
use cs_run_state::items::{ExprStep, Item, StmtStep};
use cs_run_state::machine::Machine;
use std::alloc::AllocError;

/// Puts a step of a statement, the first counted point of which has a number, before the other things to do.
pub fn put_stmt<'a>(
    state: &mut Machine<'a>,
    step: StmtStep,
    s: &'a Stmt,
    counted_point: u64,
) -> Result<(), AllocError>
    ensures { OnOk result (state_of state.new
        ≡ machine.to_do (statement_item step (statement s.now) counted_point
        ∷ (state_of state.old).frame.todo) (state_of state.old)) }
{
    state.put(Item::Statement(step, s, counted_point))?;
    Ok(())
}

/// Puts consecutive statements before the other things to do.
#[tactic(auto, unfolding(cs_run_state::specs::MachineView::state_of))]
pub fn put_all<'a>(
    state: &mut Machine<'a>,
    statements: &'a [Stmt],
    counted_point: u64,
) -> Result<(), AllocError>
    ensures { OnOk result (state_of state.new
        ≡ machine.to_do (jumps.executes (statement_list statements.now) counted_point
        (state_of state.old).frame.todo) (state_of state.old)) }
{
    put_statements(&mut state.frame.todo, statements, counted_point)?;
    Ok(())
}

/// Schedules the evaluation of a test, or of the value of a `switch`, and the branch that it selects.
pub fn put_test<'a>(
    state: &mut Machine<'a>,
    test: &'a Expr,
    s: &'a Stmt,
    counted_point: u64,
) -> Result<(), AllocError>
    ensures { OnOk result (state_of state.new
        ≡ machine.to_do (machine.Evaluate (typed test.now)
        ∷ (machine.Decide (statement s.now) counted_point ∷ (state_of state.old).frame.todo))
        (state_of state.old)) }
{
    put_stmt(state, StmtStep::Decide, s, counted_point)?;
    state.put_expr(ExprStep::Evaluate, test)?;
    Ok(())
}

/// Schedules the head of a loop, and after the loop the mark to which `break` leads.
pub fn put_loop<'a>(
    state: &mut Machine<'a>,
    s: &'a Stmt,
    counted_point: u64,
) -> Result<(), AllocError>
    ensures { OnOk result (state_of state.new
        ≡ machine.to_do (machine.Turn (statement s.now) counted_point
        ∷ (machine.Out ∷ (state_of state.old).frame.todo)) (state_of state.old)) }
{
    state.put(Item::Out)?;
    put_stmt(state, StmtStep::Turn, s, counted_point)?;
    Ok(())
}

/// Schedules the body of a loop, and the step after it.
pub fn put_body<'a>(
    state: &mut Machine<'a>,
    s: &'a Stmt,
    counted_point: u64,
    body: &'a Stmt,
    inner: u64,
) -> Result<(), AllocError>
    ensures { OnOk result (state_of state.new
        ≡ machine.to_do (machine.Execute (statement body.now) inner
        ∷ (machine.Again (statement s.now) counted_point ∷ (state_of state.old).frame.todo))
        (state_of state.old)) }
{
    put_stmt(state, StmtStep::Again, s, counted_point)?;
    put_stmt(state, StmtStep::Execute, body, inner)?;
    Ok(())
}
