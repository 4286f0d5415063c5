//! Integer types of expressions, and operators on one or two integers (C11 6.3.1, 6.5.3.3, 6.5.5 to 6.5.7, 6.5.10 to 6.5.12).
ghost use Rattle.std.specs.Prelude.{◌≡◌, IfOk};
ghost use Rattle.cs_types.specs.Shape.{shape_of};
ghost use Rattle.cs_ast.specs.TypedView.{typed};
ghost use Rattle.cs_scopes.specs.Verdicts.{Yields};
ghost use Rattle.cs_expressions.specs.Integers.{is_integer, in_type, joined, shifted, raised, turned};

use crate::nodes::{binary, convert, unary};
use cs_ast::Place;
use cs_ast::typed::expression::Expr;
use cs_ast::typed::operator::{BinOp, UnOp};
use cs_scopes::{TypeCode, TypeRefusal};
use cs_types::{CType, DataModel, IntType, promote, usual};
use std::alloc::{AllocError, Global};

/// Whether the type is this integer type.
pub fn is_integer(ty: IntType, other: &CType) -> bool
    ensures { result ≡ is_integer ty (shape_of other.now) }
{
    match other {
        CType::Int(other) => ty as u8 == *other as u8,
        _ => false,
    }
}

/// Converts an integer to a type; an integer of that type isn't changed.
pub fn in_type(alloc: Global, place: Place, ty: IntType, value: Expr) -> Result<Expr, AllocError>
    ensures { IfOk result (λ made. typed made ≡ in_type place ty (typed value)) }
{
    if is_integer(ty, &value.ty) {
        return Ok(value);
    }
    let made = convert(alloc, place, CType::Int(ty), value)?;
    Ok(made)
}

/// Returns an operator between two integers, which are converted to their common type.
#[tactic(auto, unfolding(crate::specs::Integers::joined))]
pub fn joined(
    alloc: Global,
    model: DataModel,
    operator: BinOp,
    place: Place,
    left: Expr,
    right: Expr,
) -> Result<Expr, TypeRefusal>
    ensures { Yields (joined model operator place (typed left) (typed right) (shape_of left.ty)
        (shape_of right.ty)) result }
{
    let (CType::Int(one), CType::Int(other)) = (&left.ty, &right.ty) else {
        return Err(TypeRefusal::Code(TypeCode::OperandTypes, place));
    };
    let ty = usual(model, *one, *other);
    let left = in_type(alloc, place, ty, left)?;
    let right = in_type(alloc, place, ty, right)?;
    let made = binary(alloc, place, operator, ty, left, right)?;
    Ok(made)
}

/// Returns a shift of an integer by another, each in its own promoted type.
#[tactic(auto, unfolding(crate::specs::Integers::shifted))]
pub fn shifted(
    alloc: Global,
    model: DataModel,
    operator: BinOp,
    place: Place,
    left: Expr,
    right: Expr,
) -> Result<Expr, TypeRefusal>
    ensures { Yields (shifted model operator place (typed left) (typed right) (shape_of left.ty)
        (shape_of right.ty)) result }
{
    let (CType::Int(one), CType::Int(other)) = (&left.ty, &right.ty) else {
        return Err(TypeRefusal::Code(TypeCode::OperandTypes, place));
    };
    let ty = promote(model, *one);
    let count_type = promote(model, *other);
    let left = in_type(alloc, place, ty, left)?;
    let right = in_type(alloc, place, count_type, right)?;
    let made = binary(alloc, place, operator, ty, left, right)?;
    Ok(made)
}

/// Returns an integer in its promoted type.
#[tactic(auto, unfolding(crate::specs::Integers::raised))]
pub fn raised(
    alloc: Global,
    model: DataModel,
    place: Place,
    value: Expr,
) -> Result<Expr, TypeRefusal>
    ensures { Yields (raised model place (typed value) (shape_of value.ty)) result }
{
    let CType::Int(ty) = &value.ty else {
        return Err(TypeRefusal::Code(TypeCode::OperandTypes, place));
    };
    let ty = promote(model, *ty);
    let made = in_type(alloc, place, ty, value)?;
    Ok(made)
}

/// Returns an operator on one integer in its promoted type.
#[tactic(auto, unfolding(crate::specs::Integers::turned))]
pub fn turned(
    alloc: Global,
    model: DataModel,
    operator: UnOp,
    place: Place,
    value: Expr,
) -> Result<Expr, TypeRefusal>
    ensures { Yields (turned model operator place (typed value) (shape_of value.ty)) result }
{
    let CType::Int(ty) = &value.ty else {
        return Err(TypeRefusal::Code(TypeCode::OperandTypes, place));
    };
    let ty = promote(model, *ty);
    let value = in_type(alloc, place, ty, value)?;
    let made = unary(alloc, place, operator, ty, value)?;
    Ok(made)
}
