//! Values of constant expressions (C11 6.6).
ghost use Rattle.std.specs.Prelude.{◌≡◌, ◌+ℤ◌, ◌*ℤ◌, pos, IfOk};
ghost use Rattle.cs_types.specs.Shape.{shape_of, integer};
ghost use Rattle.cs_ast.specs.TypedProgram.{HasLayouts, typed_program};
ghost use Rattle.cs_ast.specs.TypedView.{typed};
ghost use Rattle.cs_events.specs.Objects.{NumberCell};
ghost use Rattle.cs_events.specs.Operations as operations;
ghost use Rattle.cs_meaning.specs.Types as types;
ghost use Rattle.cs_meaning.specs.Initials as initials;
ghost use Rattle.cs_values.specs.View.{cell_of};

use crate::arithmetic::own_result;
use crate::objects::{Cell, Object, let_go_of_object};
use crate::operations::{Stride, binary_operation, comparison, conversion, stride_of};
use crate::types::size_of;
use cs_ast::typed::expression::{Expr, ExprKind};
use cs_ast::typed::operator::{Direction, UnOp};
use cs_ast::typed::program::Program;
use cs_events::Operation;
use cs_types::{CType, DataModel, IntType, offset_bound};
use std::alloc::AllocError;

/// Returns the value of a constant expression: each operation yields its own result.
#[cycle(constant)]
pub fn constant(program: &Program, e: &Expr) -> Result<Cell, AllocError>
    requires { HasLayouts program.now }
    ensures { IfOk result (λ cell.
        cell_of cell ≡ initials.constant (typed_program program.now) (typed e.now)) }
{
    let model = program.model;
    match &*e.kind {
        ExprKind::Number(number) => Ok(Cell::Number(*number)),
        ExprKind::Null => Ok(Cell::Null),
        ExprKind::Text(literal) => Ok(Cell::Pointer(Object::Literal(*literal), 0)),
        ExprKind::Global(global) => Ok(Cell::Pointer(Object::Global(*global), 0)),
        ExprKind::Index(array, number, _) => {
            let number = constant_number(program, number)?;
            let size = size_of(program, &e.ty)?;
            let stride = stride_of(&number, Direction::Forward, size)?;
            moved(model, constant(program, array)?, stride)
        }
        ExprKind::Member(object, offset) => constant(program, object)?.further(*offset),
        ExprKind::Address(object) => constant(program, object),
        ExprKind::Decay(array) => constant(program, array),
        ExprKind::Convert(value) => converted(model, &e.ty, constant(program, value)?),
        ExprKind::Unary(operator, operand) => {
            let number = constant_number(program, operand)?;
            own_number(
                model,
                unary_operation(*operator, integer_of(&e.ty), &number),
            )
        }
        ExprKind::Not(operand) => {
            let holds = constant_truth(program, operand)?;
            Ok(truth_cell(!holds))
        }
        ExprKind::Binary(operator, left, right) => {
            let one = constant_number(program, left)?;
            let other = constant_number(program, right)?;
            own_number(
                model,
                binary_operation(*operator, integer_of(&e.ty), &one, &other),
            )
        }
        ExprKind::Compare(operator, left, right) => {
            let one = constant_number(program, left)?;
            let other = constant_number(program, right)?;
            own_number(model, comparison(*operator, &one, &other))
        }
        ExprKind::Sum(pointer, amount, direction, _) => {
            let number = constant_number(program, amount)?;
            let size = target_size(program, &e.ty)?;
            let stride = stride_of(&number, *direction, size)?;
            moved(model, constant(program, pointer)?, stride)
        }
        ExprKind::And(left, right) => {
            let one = constant_truth(program, left)?;
            let other = constant_truth(program, right)?;
            Ok(truth_cell(one && other))
        }
        ExprKind::Or(left, right) => {
            let one = constant_truth(program, left)?;
            let other = constant_truth(program, right)?;
            Ok(truth_cell(one || other))
        }
        ExprKind::Choice(test, one, other) => {
            if constant_truth(program, test)? {
                constant(program, one)
            } else {
                constant(program, other)
            }
        }
        ExprKind::Local(_) | ExprKind::Through(_) | ExprKind::Arrow(_, _) => Ok(Cell::Unset),
        ExprKind::Load(_) | ExprKind::Difference(_, _) => Ok(Cell::Unset),
        ExprKind::Comma(_, _) | ExprKind::Assign(_, _) => Ok(Cell::Unset),
        ExprKind::Update(_, _, _, _, _) | ExprKind::Move(_, _, _, _) => Ok(Cell::Unset),
        ExprKind::Call(_, _) | ExprKind::Allocate(_, _, _) => Ok(Cell::Unset),
        ExprKind::Free(_) => Ok(Cell::Unset),
    }
}

// Returns the number of a constant expression; a pointer counts as 0.
#[cycle(constant)]
fn constant_number(program: &Program, e: &Expr) -> Result<i128, AllocError>
    requires { HasLayouts program.now }
    ensures { IfOk result (λ number.
        number ≡ initials.number_in
        (initials.constant (typed_program program.now) (typed e.now))) }
{
    let cell = constant(program, e)?;
    Ok(cell.number())
}

// Whether a constant expression is neither 0 nor null.
#[cycle(constant)]
fn constant_truth(program: &Program, e: &Expr) -> Result<bool, AllocError>
    requires { HasLayouts program.now }
    ensures { IfOk result (λ holds.
        holds ≡ initials.is_set (initials.constant (typed_program program.now) (typed e.now))) }
{
    let cell = constant(program, e)?;
    Ok(cell.is_set())
}

/// Returns the operation of a unary integer operator.
pub fn unary_operation(operator: UnOp, ty: IntType, operand: &i128) -> Operation
    ensures { result ≡ Operation.Unary operator ty operand.now }
{
    Operation::Unary(operator, ty, *operand)
}

/// Returns a type as an integer type.
pub fn integer_of(ty: &CType) -> IntType
    ensures { result ≡ types.integer_of (shape_of ty.now) }
{
    match ty {
        CType::Int(ty) => *ty,
        CType::Void | CType::Pointer(_) | CType::Array(_, _) | CType::Struct(_) => IntType::Int,
    }
}

/// Returns the size of what a pointer of a type points to (C11 6.2.5, paragraph 20).
pub fn target_size(program: &Program, ty: &CType) -> Result<u64, AllocError>
    requires { HasLayouts program.now }
    ensures { IfOk result (λ bytes.
        bytes ≡ types.size_of (typed_program program.now) (types.target_of (shape_of ty.now))) }
{
    match ty {
        CType::Pointer(target) => size_of(program, target),
        CType::Void | CType::Int(_) | CType::Array(_, _) | CType::Struct(_) => Ok(0),
    }
}

/// Returns the cell of a truth value.
pub fn truth_cell(holds: bool) -> Cell
    ensures { cell_of result ≡ initials.truth_cell holds }
{
    Cell::Number(i128::from(holds))
}

// Returns the own result of an operation.
fn own_number(model: DataModel, operation: Operation) -> Result<Cell, AllocError>
    ensures { IfOk result (λ cell.
        cell_of cell ≡ NumberCell (operations.own_result model operation)) }
{
    let own = own_result(model, operation)?;
    Ok(Cell::Number(own.number))
}

// Moves a pointer by a stride.
fn moved(model: DataModel, pointer: Cell, stride: Stride) -> Result<Cell, AllocError>
    ensures { IfOk result (λ cell.
        cell_of cell ≡ initials.moved model (cell_of pointer) stride.amount stride.size) }
{
    match pointer {
        Cell::Pointer(object, offset) => {
            match moved_offset(model, &offset, stride) {
                Ok(offset) => Ok(Cell::Pointer(object, offset)),
                Err(error) => {
                    let_go_of_object(object);
                    Err(error)
                }
            }
        }
        Cell::Number(number) => Ok(Cell::Number(number)),
        Cell::Null => Ok(Cell::Null),
        Cell::Unset => Ok(Cell::Unset),
    }
}

// Returns the offset of a moved pointer; past a bound, the bound.
fn moved_offset(model: DataModel, offset: &i128, stride: Stride) -> Result<i128, AllocError>
    ensures { IfOk result (λ moved.
        moved ≡ initials.clamped model (offset.now +ℤ stride.amount *ℤ pos stride.size)) }
{
    let by = stride
        .amount
        .checked_mul(i128::from(stride.size))
        .ok_or(AllocError)?;
    let moved = offset.checked_add(by).ok_or(AllocError)?;
    Ok(clamped(model, moved))
}

// Returns an offset, or the nearer bound of offsets if it is outside.
fn clamped(model: DataModel, offset: i128) -> i128
    ensures { result ≡ initials.clamped model offset }
{
    let bound = offset_bound(model);
    if bound < offset {
        bound
    } else if offset < -bound {
        -bound
    } else {
        offset
    }
}

// Converts a cell to a type.
fn converted(model: DataModel, ty: &CType, cell: Cell) -> Result<Cell, AllocError>
    ensures { IfOk result (λ made.
        cell_of made ≡ initials.converted model (shape_of ty.now) (cell_of cell)) }
{
    match ty {
        CType::Int(ty) => converted_to(model, *ty, cell),
        CType::Void => Ok(cell),
        CType::Pointer(_) => Ok(cell),
        CType::Array(_, _) => Ok(cell),
        CType::Struct(_) => Ok(cell),
    }
}

// Converts a cell to an integer type.
fn converted_to(model: DataModel, ty: IntType, cell: Cell) -> Result<Cell, AllocError>
    ensures { IfOk result (λ made.
        cell_of made ≡ initials.converted model (integer ty) (cell_of cell)) }
{
    match cell {
        Cell::Number(number) => own_number(model, conversion(ty, &number)),
        Cell::Null => Ok(Cell::Null),
        Cell::Pointer(object, offset) => Ok(Cell::Pointer(object, offset)),
        Cell::Unset => Ok(Cell::Unset),
    }
}
