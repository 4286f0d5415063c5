//! The operations of expressions on their operands, which are on the stack (C11 6.5).
ghost use Rattle.std.specs.Prelude.{◌≡◌, OnOk, IfErr};
ghost use Rattle.cs_types.specs.Shape.{shape_of};
ghost use Rattle.cs_ast.specs.TypedView.{typed};
ghost use Rattle.cs_meaning.specs.Machine as machine;
ghost use Rattle.cs_meaning.specs.Expressions as expressions;
ghost use Rattle.cs_events.specs.Objects.{NumberCell};
ghost use Rattle.cs_events.specs.Acts.{Goes};
ghost use Rattle.cs_meaning.specs.Access as loads;
ghost use Rattle.cs_values.specs.View.{cell_of};
ghost use Rattle.cs_run_state.specs.MachineView.{state_of};
ghost use Rattle.cs_run_state.specs.Updates.{load_act, assign_act, update_act, move_act};
ghost use Rattle.cs_runner.specs.RunnerView.{program_of, budgets_of, state_in, IsReady, Performs};
ghost use Rattle.cs_reference.specs.Acting.{local_place, member_place, index_act, arrow_act, convert_act, unary_act, not_act, binary_act, compare_act, sum_act, difference_act, size_of_target, free_act};

use cs_ast::Place;
use cs_ast::typed::expression::{Expr, ExprKind};
use cs_ast::typed::operator::{BinOp, CmpOp, Direction, Gives, Order, UnOp};
use cs_events::Label;
use cs_frames::frames::number_of;
use cs_objects::access::access_of;
use cs_run_log::Stop;
use cs_run_state::machine::Machine;
use cs_runner::runner::Runner;
use cs_types::{CType, IntType};
use cs_values::constants::{integer_of, target_size, truth_cell, unary_operation};
use cs_values::types::size_of;
use cs_values::{Cell, Object, Operand, stride_of};

/// Carries out the operation of an expression on its operands.
pub fn act<'a>(run: &mut Runner<'a>, e: &'a Expr) -> Result<(), Stop>
    requires { IsReady run.old }
    ensures { Performs run.old run.new result
        (expressions.act (program_of run.old) (budgets_of run.old) (typed e.now)
        (state_in run.old)) }
{
    let place = e.place;
    match &*e.kind {
        ExprKind::Number(number) => act_cell(run, Cell::Number(*number)),
        ExprKind::Null => act_cell(run, Cell::Null),
        ExprKind::Text(literal) => act_cell(run, Cell::Pointer(Object::Literal(*literal), 0)),
        ExprKind::Local(declaration) => act_local(run, *declaration),
        ExprKind::Global(global) => act_cell(run, Cell::Pointer(Object::Global(*global), 0)),
        ExprKind::Index(_, _, order) => act_index(run, place, &e.ty, *order),
        ExprKind::Member(_, offset) => act_member(run, *offset),
        ExprKind::Arrow(_, offset) => act_arrow(run, place, *offset),
        ExprKind::Load(object) => act_load(run, object),
        ExprKind::Convert(value) => act_convert(run, place, &value.ty, &e.ty),
        ExprKind::Unary(operator, _) => act_unary(run, place, &e.ty, *operator),
        ExprKind::Not(_) => act_not(run, place),
        ExprKind::Binary(operator, _, _) => act_binary(run, place, &e.ty, *operator),
        ExprKind::Compare(operator, _, _) => act_compare(run, place, *operator),
        ExprKind::Sum(_, _, direction, order) => act_sum(run, place, &e.ty, *direction, *order),
        ExprKind::Difference(left, _) => act_difference(run, place, &left.ty),
        ExprKind::Assign(object, _) => act_assign(run, place, object),
        ExprKind::Update(operator, object, _, works_in, gives) => {
            act_update(run, place, *operator, object, *works_in, *gives)
        }
        ExprKind::Move(object, _, direction, gives) => {
            act_move(run, place, object, *direction, *gives)
        }
        ExprKind::Call(function, arguments) => run.call(place, *function, arguments.len()),
        ExprKind::Allocate(allocator, _, element) => run.allocate(place, *allocator, element),
        ExprKind::Free(_) => act_free(run, place),
        ExprKind::Through(_) | ExprKind::Address(_) | ExprKind::Decay(_) => Ok(()),
        ExprKind::And(_, _) | ExprKind::Or(_, _) | ExprKind::Choice(_, _, _) => Ok(()),
        ExprKind::Comma(_, _) => Ok(()),
    }
}

// Pushes a scalar.
fn act_cell(run: &mut Runner, cell: Cell) -> Result<(), Stop>
    ensures { Performs run.old run.new result
        (Goes (machine.push_cell (cell_of cell) (state_in run.old))) }
{
    run.machine.push_cell(cell)?;
    Ok(())
}

// Pushes the lvalue of a local.
fn act_local(run: &mut Runner, declaration: u32) -> Result<(), Stop>
    ensures { Performs run.old run.new result
        (Goes (local_place declaration (state_in run.old))) }
{
    let object = Object::Local(number_of(&run.machine), declaration);
    run.machine.push_cell(Cell::Pointer(object, 0))?;
    Ok(())
}

// Pushes the lvalue of a member.
fn act_member(run: &mut Runner, offset: u64) -> Result<(), Stop>
    ensures { Performs run.old run.new result
        (Goes (member_place offset (state_in run.old))) }
{
    let place = run.machine.pop_cell().further(offset)?;
    run.machine.push_cell(place)?;
    Ok(())
}

// The element of an array: a pointer sum.
fn act_index(run: &mut Runner, place: Place, ty: &CType, order: Order) -> Result<(), Stop>
    requires { IsReady run.old }
    ensures { Performs run.old run.new result
        (index_act (program_of run.old) place (shape_of ty.now) order (state_in run.old)) }
{
    let size = size_of(run.setting.program, ty)?;
    let (pointer, amount) = run.machine.pop_both(order);
    let stride = stride_of(&amount, Direction::Forward, size)?;
    let moved = run.log.sum(run.setting, place, pointer, stride)?;
    run.machine.push_cell(moved)?;
    Ok(())
}

// The member of the object that a pointer points to.
fn act_arrow(run: &mut Runner, place: Place, offset: u64) -> Result<(), Stop>
    ensures { Performs run.old run.new result (arrow_act place offset (state_in run.old)) }
{
    let pointer = run.machine.pop_cell();
    let made = run.log.arrow(run.setting, place, pointer, offset)?;
    run.machine.push_cell(made)?;
    Ok(())
}

// A load.
fn act_load(run: &mut Runner, object: &Expr) -> Result<(), Stop>
    requires { IsReady run.old }
    ensures { Performs run.old run.new result
        (load_act (program_of run.old) (loads.access_of (typed object.now))
        (state_in run.old)) }
{
    let access = access_of(object);
    run.machine.load_from(&mut run.log, run.setting, access)
}

// A conversion.
fn act_convert(run: &mut Runner, place: Place, from: &CType, to: &CType) -> Result<(), Stop>
    ensures { Performs run.old run.new result
        (convert_act (program_of run.old) place (shape_of from.now) (shape_of to.now)
        (state_in run.old)) }
{
    let operand = run.machine.pop();
    let made = run.log.convert(run.setting, place, from, to, operand)?;
    run.machine.push(made)?;
    Ok(())
}

// A unary integer operator.
fn act_unary(run: &mut Runner, place: Place, ty: &CType, operator: UnOp) -> Result<(), Stop>
    ensures { Performs run.old run.new result
        (unary_act place (shape_of ty.now) operator (state_in run.old)) }
{
    let operand = run.machine.pop_number();
    let operation = unary_operation(operator, integer_of(ty), &operand);
    let number = run.log.ask(run.setting, place, operation)?;
    run.machine.push_cell(Cell::Number(number))?;
    Ok(())
}

// The operator `!`.
fn act_not(run: &mut Runner, place: Place) -> Result<(), Stop>
    ensures { Performs run.old run.new result (not_act place (state_in run.old)) }
{
    let operand = run.machine.pop_cell();
    let holds = run.log.truth(run.setting, place, &operand)?;
    run.log.show(run.setting, place, Label::Truth(!holds))?;
    run.machine.push_cell(truth_cell(!holds))?;
    Ok(())
}

// A binary integer operator.
fn act_binary(run: &mut Runner, place: Place, ty: &CType, operator: BinOp) -> Result<(), Stop>
    ensures { Performs run.old run.new result
        (binary_act (program_of run.old) place (shape_of ty.now) operator
        (state_in run.old)) }
{
    let (left, right) = run.machine.pop_numbers();
    let ty = integer_of(ty);
    let number = run
        .log
        .operate(run.setting, place, operator, ty, &left, &right)?;
    run.machine.push_cell(Cell::Number(number))?;
    Ok(())
}

// A comparison.
fn act_compare(run: &mut Runner, place: Place, operator: CmpOp) -> Result<(), Stop>
    ensures { Performs run.old run.new result
        (compare_act place operator (state_in run.old)) }
{
    let (left, right) = run.machine.pop_two();
    let number = run
        .log
        .compare(run.setting, place, operator, &left, &right)?;
    run.machine.push_cell(Cell::Number(number))?;
    Ok(())
}

// A pointer plus or minus a number of elements.
fn act_sum(
    run: &mut Runner,
    place: Place,
    ty: &CType,
    direction: Direction,
    order: Order,
) -> Result<(), Stop>
    requires { IsReady run.old }
    ensures { Performs run.old run.new result
        (sum_act (program_of run.old) place (shape_of ty.now) direction order
        (state_in run.old)) }
{
    let size = target_size(run.setting.program, ty)?;
    let (pointer, amount) = run.machine.pop_both(order);
    let stride = stride_of(&amount, direction, size)?;
    let moved = run.log.sum(run.setting, place, pointer, stride)?;
    run.machine.push_cell(moved)?;
    Ok(())
}

// The difference of two pointers, in elements.
fn act_difference(run: &mut Runner, place: Place, ty: &CType) -> Result<(), Stop>
    requires { IsReady run.old }
    ensures { Performs run.old run.new result
        (difference_act (program_of run.old) place (shape_of ty.now) (state_in run.old)) }
{
    let size = target_size(run.setting.program, ty)?;
    let (left, right) = run.machine.pop_two();
    let number = run.log.difference(run.setting, place, &left, &right, size)?;
    run.machine.push_cell(Cell::Number(number))?;
    Ok(())
}

// An assignment, which pushes the stored value.
fn act_assign(run: &mut Runner, place: Place, object: &Expr) -> Result<(), Stop>
    requires { IsReady run.old }
    ensures { Performs run.old run.new result
        (assign_act (program_of run.old) place (loads.access_of (typed object.now))
        (state_in run.old)) }
{
    let access = access_of(object);
    run.machine.assign(&mut run.log, run.setting, place, access)
}

// An update of a number.
fn act_update(
    run: &mut Runner,
    place: Place,
    operator: BinOp,
    object: &Expr,
    works_in: IntType,
    gives: Gives,
) -> Result<(), Stop>
    requires { IsReady run.old }
    ensures { Performs run.old run.new result
        (update_act (program_of run.old) place operator (loads.access_of (typed object.now))
        works_in gives (state_in run.old)) }
{
    let access = access_of(object);
    run.machine.update(
        &mut run.log,
        run.setting,
        place,
        operator,
        access,
        works_in,
        gives,
    )
}

// An update of a pointer.
fn act_move(
    run: &mut Runner,
    place: Place,
    object: &Expr,
    direction: Direction,
    gives: Gives,
) -> Result<(), Stop>
    requires { IsReady run.old }
    ensures { Performs run.old run.new result
        (move_act (program_of run.old) place (loads.access_of (typed object.now))
        (size_of_target (program_of run.old) (typed object.now)) direction gives
        (state_in run.old)) }
{
    let bytes = target_size(run.setting.program, &object.ty)?;
    let access = access_of(object);
    run.machine.move_pointer(
        &mut run.log,
        run.setting,
        place,
        access,
        bytes,
        direction,
        gives,
    )
}

// A call of `free`.
fn act_free(run: &mut Runner, place: Place) -> Result<(), Stop>
    ensures { Performs run.old run.new result (free_act place (state_in run.old)) }
{
    let pointer = run.machine.pop_cell();
    run.release(place, pointer)
}
