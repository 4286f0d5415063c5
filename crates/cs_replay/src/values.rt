//! Operations on values (C11 6.3, 6.5).
ghost use Rattle.std.specs.Prelude.{◌≡◌, OnOk, IfErr};
ghost use Rattle.cs_types.specs.Shape.{shape_of};
ghost use Rattle.cs_meaning.specs.Machine as machine;
ghost use Rattle.cs_events.specs.Acts.{Goes};
ghost use Rattle.cs_values.specs.View.{cell_of};
ghost use Rattle.cs_cfg.specs.Graph as graph;
ghost use Rattle.cs_runner.specs.RunnerView.{program_of, budgets_of, state_in, Performs};
ghost use Rattle.cs_replay.specs.Works.{works};

use cs_ast::Place;
use cs_ast::typed::operator::{BinOp, CmpOp, Direction, Order, UnOp};
use cs_events::Label;
use cs_frames::frames::number_of;
use cs_run_log::Stop;
use cs_runner::runner::Runner;
use cs_types::{CType, IntType};
use cs_values::constants::{truth_cell, unary_operation};
use cs_values::{Cell, Object, Operand, stride_of};

/// Pushes a scalar.
pub fn give(run: &mut Runner, cell: Cell) -> Result<(), Stop>
    ensures { Performs run.old run.new result
        (Goes (machine.push_cell (cell_of cell) (state_in run.old))) }
{
    run.machine.push_cell(cell)?;
    Ok(())
}

/// Pushes the lvalue of a local of the frame.
pub fn local_place(run: &mut Runner, place: Place, declaration: u32) -> Result<(), Stop>
    ensures { Performs run.old run.new result
        (works (program_of run.old) (budgets_of run.old) place (graph.Local declaration)
        (state_in run.old)) }
{
    let object = Object::Local(number_of(&run.machine), declaration);
    run.machine.push_cell(Cell::Pointer(object, 0))?;
    Ok(())
}

/// Pushes no value.
pub fn give_nothing(run: &mut Runner, place: Place) -> Result<(), Stop>
    ensures { Performs run.old run.new result
        (works (program_of run.old) (budgets_of run.old) place graph.Nothing (state_in run.old)) }
{
    run.machine.push(Operand::Nothing)?;
    Ok(())
}

/// Adds a number of elements of a size in bytes to a pointer, or subtracts it (C11 6.5.2.1, 6.5.6).
pub fn sum(
    run: &mut Runner,
    place: Place,
    bytes: u64,
    direction: Direction,
    order: Order,
) -> Result<(), Stop>
    ensures { Performs run.old run.new result
        (works (program_of run.old) (budgets_of run.old) place (graph.Sum bytes direction order)
        (state_in run.old)) }
{
    let (pointer, amount) = run.machine.pop_both(order);
    let stride = stride_of(&amount, direction, bytes)?;
    let moved = run.log.sum(run.setting, place, pointer, stride)?;
    run.machine.push_cell(moved)?;
    Ok(())
}

/// Pushes the lvalue of a member (C11 6.5.2.3).
pub fn member(run: &mut Runner, place: Place, offset: u64) -> Result<(), Stop>
    ensures { Performs run.old run.new result
        (works (program_of run.old) (budgets_of run.old) place (graph.Member offset)
        (state_in run.old)) }
{
    let member = run.machine.pop_cell().further(offset)?;
    run.machine.push_cell(member)?;
    Ok(())
}

/// Pushes the lvalue of a member through a pointer (C11 6.5.2.3).
pub fn arrow(run: &mut Runner, place: Place, offset: u64) -> Result<(), Stop>
    ensures { Performs run.old run.new result
        (works (program_of run.old) (budgets_of run.old) place (graph.Arrow offset)
        (state_in run.old)) }
{
    let pointer = run.machine.pop_cell();
    let member = run.log.arrow(run.setting, place, pointer, offset)?;
    run.machine.push_cell(member)?;
    Ok(())
}

/// Converts a value (C11 6.3).
pub fn convert(run: &mut Runner, place: Place, from: &CType, to: &CType) -> Result<(), Stop>
    ensures { Performs run.old run.new result
        (works (program_of run.old) (budgets_of run.old) place
        (graph.Convert (shape_of from.now) (shape_of to.now)) (state_in run.old)) }
{
    let operand = run.machine.pop();
    let made = run.log.convert(run.setting, place, from, to, operand)?;
    run.machine.push(made)?;
    Ok(())
}

/// Applies a unary integer operator (C11 6.5.3.3).
pub fn unary(run: &mut Runner, place: Place, operator: UnOp, ty: IntType) -> Result<(), Stop>
    ensures { Performs run.old run.new result
        (works (program_of run.old) (budgets_of run.old) place (graph.Unary operator ty)
        (state_in run.old)) }
{
    let operand = run.machine.pop_number();
    let operation = unary_operation(operator, ty, &operand);
    let number = run.log.ask(run.setting, place, operation)?;
    run.machine.push_cell(Cell::Number(number))?;
    Ok(())
}

/// Applies the operator `!` (C11 6.5.3.3).
pub fn not(run: &mut Runner, place: Place) -> Result<(), Stop>
    ensures { Performs run.old run.new result
        (works (program_of run.old) (budgets_of run.old) place graph.Not (state_in run.old)) }
{
    let operand = run.machine.pop_cell();
    let holds = run.log.truth(run.setting, place, &operand)?;
    run.log.show(run.setting, place, Label::Truth(!holds))?;
    run.machine.push_cell(truth_cell(!holds))?;
    Ok(())
}

/// Applies a binary integer operator (C11 6.5.5 to 6.5.7, 6.5.10 to 6.5.12).
pub fn binary(run: &mut Runner, place: Place, operator: BinOp, ty: IntType) -> Result<(), Stop>
    ensures { Performs run.old run.new result
        (works (program_of run.old) (budgets_of run.old) place (graph.Binary operator ty)
        (state_in run.old)) }
{
    let (left, right) = run.machine.pop_numbers();
    let number = run
        .log
        .operate(run.setting, place, operator, ty, &left, &right)?;
    run.machine.push_cell(Cell::Number(number))?;
    Ok(())
}

/// Compares two values (C11 6.5.8, 6.5.9).
pub fn compare(run: &mut Runner, place: Place, operator: CmpOp) -> Result<(), Stop>
    ensures { Performs run.old run.new result
        (works (program_of run.old) (budgets_of run.old) place (graph.Compare operator)
        (state_in run.old)) }
{
    let (left, right) = run.machine.pop_two();
    let number = run
        .log
        .compare(run.setting, place, operator, &left, &right)?;
    run.machine.push_cell(Cell::Number(number))?;
    Ok(())
}

/// Subtracts two pointers, in elements of a size in bytes (C11 6.5.6).
pub fn difference(run: &mut Runner, place: Place, bytes: u64) -> Result<(), Stop>
    ensures { Performs run.old run.new result
        (works (program_of run.old) (budgets_of run.old) place (graph.Difference bytes)
        (state_in run.old)) }
{
    let (left, right) = run.machine.pop_two();
    let number = run
        .log
        .difference(run.setting, place, &left, &right, bytes)?;
    run.machine.push_cell(Cell::Number(number))?;
    Ok(())
}
