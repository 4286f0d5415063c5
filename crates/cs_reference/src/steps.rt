//! The steps of a run.
ghost use Rattle.std.specs.Prelude.{◌≡◌, [], ◌∷◌, OnOk, IfErr};
ghost use Rattle.cs_ast.specs.TypedView.{typed, statement};
ghost use Rattle.cs_meaning.specs.Calls as calls;
ghost use Rattle.cs_meaning.specs.Machine as machine;
ghost use Rattle.cs_meaning.specs.Steps as steps;
ghost use Rattle.cs_values.specs.View.{operand_of};
ghost use Rattle.cs_objects.specs.BlockView.{type_of};
ghost use Rattle.cs_run_state.specs.MachineView.{state_of, item_of, expression_item, statement_item};
ghost use Rattle.cs_runner.specs.RunnerView.{program_of, budgets_of, state_in, IsReady, Performs};

use crate::acting::act;
use crate::declarations::store_local;
use crate::fetching::fetch;
use crate::loops::{decide, turn};
use crate::statements::execute;
use cs_ast::Place;
use cs_ast::typed::expression::Expr;
use cs_ast::typed::statement::Stmt;
use cs_events::PointKind;
use cs_frames::rounds::go_again;
use cs_objects::blocks::BlockType;
use cs_run_log::{Stop, Touch};
use cs_run_state::items::{ExprStep, Item, StmtStep};
use cs_run_state::machine::Machine;
use cs_runner::runner::Runner;
use cs_types::CType;
use cs_values::{Cell, Operand};
use std::alloc::AllocError;

/// Carries out one step.
pub fn step(run: &mut Runner) -> Result<(), Stop>
    requires { IsReady run.old }
    ensures { Performs run.old run.new result
        (steps.step (program_of run.old) (budgets_of run.old) (state_in run.old)) }
{
    match run.machine.next() {
        Some(item) => perform(run, item),
        None => run.leave(Operand::Scalar(Cell::Unset)),
    }
}

// Carries out a thing to do, with the other things still to do.
fn perform<'a>(run: &mut Runner<'a>, item: Item<'a>) -> Result<(), Stop>
    requires { IsReady run.old }
    ensures { Performs run.old run.new result
        (steps.do_item (program_of run.old) (budgets_of run.old) (item_of item.entry)
        (state_in run.old)) }
{
    match item {
        Item::Expression(step, e) => perform_expr(run, step, e),
        Item::Statement(step, s, counted_point) => perform_stmt(run, step, s, counted_point),
        Item::Judge(place) => run.machine.judge(&mut run.log, run.setting, place),
        Item::Use(place) => run.machine.use_result(&run.log, run.setting, place),
        Item::Discard => {
            run.machine.pop();
            Ok(())
        }
        Item::Store(place, declaration, offset, ty) => {
            store_local(run, place, declaration, offset, ty)
        }
        Item::Spell(declaration, offset, bytes) => {
            let program = run.setting.program;
            run.machine
                .spell_local(program, declaration, offset, bytes)?;
            Ok(())
        }
        Item::Pass(_) => Ok(()),
        Item::Out => Ok(()),
        Item::Begin(place) => {
            run.log.touch(Touch::Meets(PointKind::Enter, place))?;
            Ok(())
        }
        Item::End(place, ty) => come_to_end(run, place, ty),
        Item::Give(place) => {
            run.log.touch(Touch::Meets(PointKind::Return, place))?;
            leave_next(&mut run.machine)?;
            Ok(())
        }
        Item::Leave => {
            let value = run.machine.pop();
            run.leave(value)
        }
    }
}

// Carries out a step of an expression.
fn perform_expr<'a>(run: &mut Runner<'a>, step: ExprStep, e: &'a Expr) -> Result<(), Stop>
    requires { IsReady run.old }
    ensures { Performs run.old run.new result
        (steps.do_item (program_of run.old) (budgets_of run.old)
        (expression_item step (typed e.now)) (state_in run.old)) }
{
    match step {
        ExprStep::Evaluate => {
            run.machine.evaluate(e)?;
            Ok(())
        }
        ExprStep::EvaluateUnused => {
            run.machine.evaluate_parts(e)?;
            Ok(())
        }
        ExprStep::Act => act(run, e),
        ExprStep::Fetch => fetch(run, e),
        ExprStep::Choose => run.machine.choose(&mut run.log, run.setting, e),
    }
}

// Carries out a step of a statement.
fn perform_stmt<'a>(
    run: &mut Runner<'a>,
    step: StmtStep,
    s: &'a Stmt,
    counted_point: u64,
) -> Result<(), Stop>
    requires { IsReady run.old }
    ensures { Performs run.old run.new result
        (steps.do_item (program_of run.old) (budgets_of run.old)
        (statement_item step (statement s.now) counted_point) (state_in run.old)) }
{
    match step {
        StmtStep::Execute => execute(run, s, counted_point),
        StmtStep::Decide => decide(run, s, counted_point),
        StmtStep::Turn => turn(run, s, counted_point),
        StmtStep::Again => {
            go_again(&mut run.machine, s, counted_point)?;
            Ok(())
        }
    }
}

// Reaches the end of a function's body.
fn come_to_end(run: &mut Runner, place: Place, ty: BlockType) -> Result<(), Stop>
    ensures { Performs run.old run.new result
        (steps.do_item (program_of run.old) (budgets_of run.old)
        (machine.End place (calls.falls_off (type_of ty.entry))) (state_in run.old)) }
{
    run.log.touch(Touch::Meets(PointKind::End, place))?;
    run.machine.push(falls_off(ty))?;
    leave_next(&mut run.machine)?;
    Ok(())
}

// Replaces the things to do by the end of the frame.
#[tactic(auto, using(cs_run_state::proofs::States::states), unfolding(cs_run_state::specs::MachineView::state_of))]
fn leave_next(state: &mut Machine) -> Result<(), AllocError>
    ensures { OnOk result (state_of state.new
        ≡ machine.to_do (machine.Leave ∷ []) (state_of state.old)) }
{
    state.frame.todo.clear();
    state.frame.todo.push(Item::Leave)?;
    Ok(())
}

// Returns the result at the end of a function's body: nothing, or an unset value (C11 6.9.1, paragraph 12).
fn falls_off(ty: BlockType) -> Operand
    ensures { operand_of result ≡ calls.falls_off (type_of ty.entry) }
{
    match ty {
        BlockType::Of(CType::Void) => Operand::Nothing,
        BlockType::Of(CType::Int(_)) => Operand::Scalar(Cell::Unset),
        BlockType::Of(CType::Pointer(_)) => Operand::Scalar(Cell::Unset),
        BlockType::Of(CType::Array(_, _)) => Operand::Scalar(Cell::Unset),
        BlockType::Of(CType::Struct(_)) => Operand::Scalar(Cell::Unset),
        BlockType::Integer(_) => Operand::Scalar(Cell::Unset),
        BlockType::Text(_) => Operand::Scalar(Cell::Unset),
        BlockType::Void => Operand::Nothing,
    }
}
