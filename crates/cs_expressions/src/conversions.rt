//! Conversions that an operator, a call or a cast requires (C11 6.3, 6.5.4, 6.5.16.1).
ghost use Rattle.std.specs.Prelude.{◌≡◌, IfOk};
ghost use Rattle.cs_types.specs.Shape.{Shape, shape_of, pointer};
ghost use Rattle.cs_ast.specs.declared.place.Place.{Place as AnyPlace};
ghost use Rattle.cs_ast.specs.TypedView.{typed};
ghost use Rattle.cs_scopes.specs.Verdicts.{Yields};
ghost use Rattle.cs_expressions.specs.Conversions.{pointed, pointed_from_integer, converted, conversion_fault, pointer_cast, recast};
ghost use Rattle.cs_expressions.specs.Ways.{by_way};

use crate::integers::in_type;
use crate::nodes::{convert, null};
use crate::ways::Way;
use cs_ast::Place;
use cs_ast::typed::expression::Expr;
use cs_folding::{is_null, is_null_cast};
use cs_scopes::{TypeCode, TypeRefusal};
use cs_types::{CType, DataModel, is_void};
use std::alloc::Global;

/// Converts a value to a type as if by assignment, at the position of what requires it (C11 6.5.16.1).
pub fn converted(
    alloc: Global,
    model: DataModel,
    place: Place,
    value: Expr,
    target: &CType,
) -> Result<Expr, TypeRefusal>
    ensures { Yields (converted model place (typed value) (shape_of target.now) (shape_of value.ty))
        result }
{
    let way = way(model, &value, target);
    go(alloc, place, value, way)
}

/// Returns the code of a value that can't be converted to a type as if by assignment.
pub fn conversion_fault(model: DataModel, value: &Expr, target: &CType) -> Option<TypeCode>
    ensures { (at : AnyPlace)
        → result ≡ conversion_fault model at (shape_of target.now) (typed value.now) }
{
    match way(model, value, target) {
        Way::Refused(code) => Some(code),
        _ => None,
    }
}

/// Casts a value to a type (C11 6.5.4).
pub fn recast(
    alloc: Global,
    model: DataModel,
    place: Place,
    value: Expr,
    target: &CType,
) -> Result<Expr, TypeRefusal>
    ensures { Yields (recast model place (typed value) (shape_of target.now) (shape_of value.ty))
        result }
{
    let way = cast_way(model, &value, target);
    go(alloc, place, value, way)
}

// A value converted in a way.
fn go(alloc: Global, place: Place, value: Expr, way: Way) -> Result<Expr, TypeRefusal>
    ensures { Yields (by_way place (typed value) way.entry) result }
{
    match way {
        Way::Kept => Ok(value),
        Way::Integer(ty) => {
            let made = in_type(alloc, place, ty, value)?;
            Ok(made)
        }
        Way::Null(ty) => {
            let made = null(alloc, place, ty)?;
            Ok(made)
        }
        Way::Convert(ty) => {
            let ty = ty.copy(alloc)?;
            let made = convert(alloc, place, ty, value)?;
            Ok(made)
        }
        Way::Refused(code) => Err(TypeRefusal::Code(code, place)),
    }
}

// How a value is converted to a type as if by assignment.
#[tactic(auto, unfolding(crate::specs::Conversions::converted))]
fn way<'a>(model: DataModel, value: &Expr, target: &'a CType) -> Way<'a>
    ensures { (at : AnyPlace)
        → converted model at (typed value.now) (shape_of target.now) (shape_of value.now.ty)
        ≡ by_way at (typed value.now) result }
{
    match (target, &value.ty) {
        (CType::Int(ty), CType::Int(_)) => Way::Integer(*ty),
        (CType::Int(_), CType::Pointer(_)) => Way::Refused(TypeCode::PointerConversion),
        (CType::Pointer(_), CType::Int(_)) => null_way(model, value, target),
        (CType::Pointer(to), CType::Pointer(from)) => pointer_way(model, value, target, to, from),
        (CType::Struct(to), CType::Struct(from)) if *to == *from => Way::Kept,
        _ => Way::Refused(TypeCode::OperandTypes),
    }
}

// How an integer is converted to a pointer type: only a null pointer constant can be.
fn null_way<'a>(model: DataModel, value: &Expr, target: &'a CType) -> Way<'a>
    ensures { (at : AnyPlace) (to : Shape) → shape_of target.now ≡ pointer to
        → pointed_from_integer model at (typed value.now) to
        ≡ by_way at (typed value.now) result }
{
    if is_null(model, value) {
        Way::Null(target)
    } else {
        Way::Refused(TypeCode::PointerConversion)
    }
}

// How a pointer is converted to a pointer type, by the types that both point to.
#[tactic(auto, unfolding(crate::specs::Conversions::pointed))]
fn pointer_way<'a>(
    model: DataModel,
    value: &Expr,
    target: &'a CType,
    to: &CType,
    from: &CType,
) -> Way<'a>
    requires { shape_of target.now ≡ pointer (shape_of to.now) }
    ensures { (at : AnyPlace)
        → pointed model at (typed value.now) (shape_of to.now) (shape_of from.now)
        ≡ by_way at (typed value.now) result }
{
    if *to == *from {
        Way::Kept
    } else if is_null(model, value) {
        Way::Null(target)
    } else if is_void(to) {
        Way::Convert(target)
    } else {
        Way::Refused(TypeCode::PointerConversion)
    }
}

// How a value is cast to a type.
#[tactic(auto, unfolding(crate::specs::Conversions::recast))]
fn cast_way<'a>(model: DataModel, value: &Expr, target: &'a CType) -> Way<'a>
    ensures { (at : AnyPlace)
        → recast model at (typed value.now) (shape_of target.now) (shape_of value.now.ty)
        ≡ by_way at (typed value.now) result }
{
    match (target, &value.ty) {
        (CType::Void, _) => Way::Convert(target),
        (CType::Int(_), CType::Int(_)) => Way::Convert(target),
        (CType::Int(_), CType::Pointer(_)) => Way::Refused(TypeCode::PointerConversion),
        (CType::Pointer(_), CType::Int(_)) => null_way(model, value, target),
        (CType::Pointer(to), CType::Pointer(from)) => {
            pointer_cast_way(model, value, target, to, from)
        }
        _ => Way::Refused(TypeCode::OperandTypes),
    }
}

// How a pointer is cast to a pointer type, by the types that both point to.
#[tactic(auto, unfolding(crate::specs::Conversions::pointer_cast, cs_folding::specs::Folding::is_null_cast))]
fn pointer_cast_way<'a>(
    model: DataModel,
    value: &Expr,
    target: &'a CType,
    to: &CType,
    from: &CType,
) -> Way<'a>
    requires { shape_of target.now ≡ pointer (shape_of to.now) }
    ensures { (at : AnyPlace)
        → pointer_cast model at (typed value.now) (shape_of to.now) (shape_of from.now)
        ≡ by_way at (typed value.now) result }
{
    if is_null_cast(model, value, to, from) {
        Way::Null(target)
    } else if *to == *from || is_void(to) {
        Way::Convert(target)
    } else {
        Way::Refused(TypeCode::PointerConversion)
    }
}
