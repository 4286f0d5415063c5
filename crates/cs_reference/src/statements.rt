//! The execution of statements (C11 6.8).
ghost use Rattle.std.specs.Prelude.{◌≡◌, ◌+◌, ◌∷◌, OnOk, IfErr, option_map, option_copied};
ghost use Rattle.cs_ast.specs.TypedView.{typed, statement, statement_list};
ghost use Rattle.cs_meaning.specs.Jumps as jumps;
ghost use Rattle.cs_meaning.specs.Machine as machine;
ghost use Rattle.cs_meaning.specs.Statements as meaning;
ghost use Rattle.cs_meaning.specs.Steps as steps;
ghost use Rattle.cs_run_state.specs.MachineView.{state_of};
ghost use Rattle.cs_runner.specs.RunnerView.{program_of, budgets_of, state_in, IsReady, Performs};

use crate::declarations::declare;
use crate::jumps::go_to;
use cs_ast::Place;
use cs_ast::typed::expression::Expr;
use cs_ast::typed::statement::{Stmt, StmtKind};
use cs_events::PointKind;
use cs_frames::landing::{break_out, go_on};
use cs_frames::putting::{put_all, put_loop, put_stmt, put_test};
use cs_objects::counted_points::together;
use cs_run_log::Stop;
use cs_run_state::items::{ExprStep, Item, StmtStep};
use cs_run_state::machine::Machine;
use cs_runner::runner::Runner;
use cs_values::Operand;
use std::alloc::AllocError;

/// Begins a statement, the first counted point of which has a number.
pub fn execute<'a>(run: &mut Runner<'a>, s: &'a Stmt, counted_point: u64) -> Result<(), Stop>
    requires { IsReady run.old }
    ensures { Performs run.old run.new result
        (meaning.execute (program_of run.old) (budgets_of run.old)
        (steps.at_end (machine.routine_of (program_of run.old)
        (state_in run.old).frame.function)) (statement s.now) counted_point
        (state_in run.old)) }
{
    match &*s.kind {
        StmtKind::Block(statements) => Ok(put_all(&mut run.machine, statements, counted_point)?),
        StmtKind::Declare(declaration, first) => {
            declare(run, s.place, *declaration, first.as_ref())
        }
        StmtKind::Run(e) => Ok(put_run(&mut run.machine, e)?),
        StmtKind::If(test, _) => Ok(put_test(&mut run.machine, test, s, counted_point)?),
        StmtKind::IfElse(test, _, _) => Ok(put_test(&mut run.machine, test, s, counted_point)?),
        StmtKind::While(_, _) => Ok(put_loop(&mut run.machine, s, counted_point)?),
        StmtKind::Do(_, _) => Ok(put_loop(&mut run.machine, s, counted_point)?),
        StmtKind::For(first, _, _, _) => Ok(put_for(&mut run.machine, s, counted_point, first)?),
        StmtKind::Switch(value, _, _) => Ok(put_switch(&mut run.machine, s, counted_point, value)?),
        StmtKind::Goto(label) => go_to(run, *label),
        StmtKind::Label(_, body) => {
            put_stmt(
                &mut run.machine,
                StmtStep::Execute,
                body,
                together(counted_point, 1)?,
            )?;
            run.reach_counted_point(s.place, PointKind::Label, counted_point)
        }
        StmtKind::Break => {
            break_out(&mut run.machine);
            Ok(())
        }
        StmtKind::Continue => {
            go_on(&mut run.machine);
            Ok(())
        }
        StmtKind::Return(value) => Ok(put_return(&mut run.machine, s.place, value.as_ref())?),
    }
}

// Schedules the first part of a `for`, and then its head.
fn put_for<'a>(
    state: &mut Machine<'a>,
    s: &'a Stmt,
    counted_point: u64,
    first: &'a [Stmt],
) -> Result<(), AllocError>
    ensures { OnOk result (state_of state.new
        ≡ machine.to_do (jumps.executes (statement_list first.now) (counted_point + 1)
        (machine.Turn (statement s.now) counted_point
        ∷ (machine.Out ∷ (state_of state.old).frame.todo))) (state_of state.old)) }
{
    put_loop(state, s, counted_point)?;
    put_all(state, first, together(counted_point, 1)?)?;
    Ok(())
}

// Schedules the value of a `switch`, and then the case that it selects.
fn put_switch<'a>(
    state: &mut Machine<'a>,
    s: &'a Stmt,
    counted_point: u64,
    value: &'a Expr,
) -> Result<(), AllocError>
    ensures { OnOk result (state_of state.new
        ≡ machine.to_do (machine.Evaluate (typed value.now)
        ∷ (machine.Decide (statement s.now) counted_point
        ∷ (machine.Out ∷ (state_of state.old).frame.todo))) (state_of state.old)) }
{
    state.put(Item::Out)?;
    put_test(state, value, s, counted_point)?;
    Ok(())
}

// Schedules an expression, whose value is dropped.
fn put_run<'a>(state: &mut Machine<'a>, e: &'a Expr) -> Result<(), AllocError>
    ensures { OnOk result (state_of state.new
        ≡ machine.to_do (machine.EvaluateUnused (typed e.now)
        ∷ (machine.Drop ∷ (state_of state.old).frame.todo)) (state_of state.old)) }
{
    state.put(Item::Discard)?;
    state.put_expr(ExprStep::EvaluateUnused, e)?;
    Ok(())
}

// A `return`: the frame ends with a value, if there is one.
fn put_return<'a>(
    state: &mut Machine<'a>,
    place: Place,
    value: Option<&'a Expr>,
) -> Result<(), AllocError>
    ensures { OnOk result (state_of state.new
        ≡ meaning.returns place (option_map typed (option_copied value.entry))
        (state_of state.old)) }
{
    state.put(Item::Give(place))?;
    match value {
        Some(value) => state.put_expr(ExprStep::Evaluate, value),
        None => state.push(Operand::Nothing),
    }
}
