//! Operators that designate objects, and `&` (C11 6.5.2.1, 6.5.2.3, 6.5.3.2).
ghost use Rattle.std.specs.Prelude.{◌≡◌};
ghost use Rattle.cs_types.specs.Shape.{Shape, shape_of, pointer};
ghost use Rattle.cs_ast.specs.TypedView.{typed};
ghost use Rattle.cs_scopes.specs.Verdicts.{Yields};
ghost use Rattle.cs_expressions.specs.Places.{address_of, through, element, indexed, selected, selected_through, struct_after, struct_number};

use crate::nodes::{address, arrow, index, member, pointer_to, through as through_node};
use crate::objects::is_object;
use cs_ast::Place;
use cs_ast::raw::name::RawName;
use cs_ast::typed::expression::Expr;
use cs_ast::typed::operator::Order;
use cs_scopes::{TypeCode, TypeRefusal, member_of};
use cs_types::{CType, StructTable, is_complete, is_void};
use std::alloc::Global;

/// Returns `&`.
#[tactic(auto, unfolding(crate::specs::Places::address_of))]
pub fn address_of(alloc: Global, place: Place, object: Expr) -> Result<Expr, TypeRefusal>
    ensures { Yields (address_of place (typed object)) result }
{
    if is_void(&object.ty) {
        return Err(TypeRefusal::Code(TypeCode::VoidValue, object.place));
    }
    if !is_object(&*object.kind) {
        return Err(TypeRefusal::Code(TypeCode::NotLvalue, place));
    }
    let ty = pointer_to(alloc, &object.ty)?;
    let made = address(alloc, place, ty, object)?;
    Ok(made)
}

/// Returns unary `*`.
#[tactic(auto, unfolding(crate::specs::Places::through))]
pub fn through(alloc: Global, place: Place, value: Expr) -> Result<Expr, TypeRefusal>
    ensures { Yields (through place (typed value) (shape_of value.ty)) result }
{
    let CType::Pointer(target) = &value.ty else {
        return Err(TypeRefusal::Code(TypeCode::OperandTypes, place));
    };
    if is_void(target) {
        return Err(TypeRefusal::Code(TypeCode::IncompleteType, place));
    }
    let ty = target.copy(alloc)?;
    let made = through_node(alloc, place, ty, value)?;
    Ok(made)
}

// An element, from a pointer and an index.
#[tactic(auto, unfolding(crate::specs::Places::element))]
fn element(
    alloc: Global,
    table: &StructTable,
    place: Place,
    array: Expr,
    number: Expr,
    order: Order,
) -> Result<Expr, TypeRefusal>
    ensures { (target : Shape) → shape_of array.ty ≡ pointer target
        → Yields (element table.now.list place (typed array) (typed number) target order) result }
{
    let CType::Pointer(target) = &array.ty else {
        return Err(TypeRefusal::Code(TypeCode::OperandTypes, place));
    };
    if !is_complete(table, target) {
        return Err(TypeRefusal::Code(TypeCode::IncompleteType, place));
    }
    let ty = target.copy(alloc)?;
    let made = index(alloc, place, ty, array, number, order)?;
    Ok(made)
}

/// Returns a subscript.
#[tactic(auto, unfolding(crate::specs::Places::indexed))]
pub fn indexed(
    alloc: Global,
    table: &StructTable,
    place: Place,
    left: Expr,
    right: Expr,
) -> Result<Expr, TypeRefusal>
    ensures { Yields (indexed table.now.list place (typed left) (typed right) (shape_of left.ty)
        (shape_of right.ty)) result }
{
    match (&left.ty, &right.ty) {
        (CType::Pointer(_), CType::Int(_)) => {
            element(alloc, table, place, left, right, Order::PointerFirst)
        }
        (CType::Int(_), CType::Pointer(_)) => {
            element(alloc, table, place, right, left, Order::AmountFirst)
        }
        _ => Err(TypeRefusal::Code(TypeCode::OperandTypes, place)),
    }
}

/// Returns `.`.
#[tactic(auto, unfolding(crate::specs::Places::selected), using(cs_scopes::proofs::Lifting::lifts))]
pub fn selected(
    alloc: Global,
    table: &StructTable,
    place: Place,
    name: &RawName,
    object: Expr,
) -> Result<Expr, TypeRefusal>
    ensures { Yields (selected table.now.list place name.now.place name.now.name (typed object))
        result }
{
    if is_void(&object.ty) {
        return Err(TypeRefusal::Code(TypeCode::VoidValue, object.place));
    }
    let Some(number) = struct_number(&object.ty) else {
        return Err(TypeRefusal::Code(TypeCode::OperandTypes, place));
    };
    if !is_object(&*object.kind) {
        return Err(TypeRefusal::Code(TypeCode::NotLvalue, place));
    }
    let found = member_of(table, name.place, &name.name, number)?;
    let ty = found.ty().copy(alloc)?;
    let made = member(alloc, place, ty, object, found.offset())?;
    Ok(made)
}

/// Returns `->`.
#[tactic(auto, unfolding(crate::specs::Places::selected_through), using(cs_scopes::proofs::Lifting::lifts))]
pub fn selected_through(
    alloc: Global,
    table: &StructTable,
    place: Place,
    name: &RawName,
    value: Expr,
) -> Result<Expr, TypeRefusal>
    ensures { Yields (selected_through table.now.list place name.now.place name.now.name
        (typed value) (shape_of value.ty)) result }
{
    let Some(number) = struct_after(&value.ty) else {
        return Err(TypeRefusal::Code(TypeCode::OperandTypes, place));
    };
    let found = member_of(table, name.place, &name.name, number)?;
    let ty = found.ty().copy(alloc)?;
    let made = arrow(alloc, place, ty, value, found.offset())?;
    Ok(made)
}

// The number of the struct that a pointer points to.
fn struct_after(ty: &CType) -> Option<u32>
    ensures { result ≡ struct_after (shape_of ty.now) }
{
    match ty {
        CType::Pointer(target) => struct_number(target),
        _ => None,
    }
}

// The number of a struct.
fn struct_number(ty: &CType) -> Option<u32>
    ensures { result ≡ struct_number (shape_of ty.now) }
{
    match ty {
        CType::Struct(number) => Some(*number),
        _ => None,
    }
}
