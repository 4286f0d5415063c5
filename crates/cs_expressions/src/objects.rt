//! Objects and their values: lvalues, complete types, sizes and scalars (C11 6.2.5, 6.3.2.1, 6.5.3.4).
ghost use Rattle.std.specs.Prelude.{◌≡◌};
ghost use Rattle.cs_types.specs.Shape.{shape_of};
ghost use Rattle.cs_ast.specs.TypedView.{typed, form};
ghost use Rattle.cs_scopes.specs.Verdicts.{Yields};
ghost use Rattle.cs_expressions.specs.Objects.{is_object, measured, held, valued, operand};

use crate::nodes::{decay, load, number, pointer_to};
use cs_ast::Place;
use cs_ast::typed::expression::{Expr, ExprKind};
use cs_scopes::{TypeCode, TypeRefusal, bytes_in};
use cs_types::{CType, DataModel, StructTable, is_complete, is_void, size_type};
use std::alloc::Global;

/// Whether the expression is an lvalue: it designates an object.
pub fn is_object(kind: &ExprKind) -> bool
    ensures { result ≡ is_object (form kind.now) }
{
    match kind {
        ExprKind::Text(_) | ExprKind::Local(_) | ExprKind::Global(_) => true,
        ExprKind::Through(_) | ExprKind::Index(_, _, _) => true,
        ExprKind::Member(_, _) | ExprKind::Arrow(_, _) => true,
        _ => false,
    }
}

/// Returns `sizeof` of a type.
#[tactic(auto, unfolding(crate::specs::Objects::measured))]
pub fn measured(
    alloc: Global,
    model: DataModel,
    table: &StructTable,
    place: Place,
    ty: &CType,
) -> Result<Expr, TypeRefusal>
    ensures { Yields (measured model table.now.list place (shape_of ty.now)) result }
{
    if !is_complete(table, ty) {
        return Err(TypeRefusal::Code(TypeCode::IncompleteType, place));
    }
    match bytes_in(model, table, ty) {
        Some(bytes) => {
            let made = number(alloc, place, size_type(model), i128::from(bytes))?;
            Ok(made)
        }
        None => Err(TypeRefusal::Code(TypeCode::Size, place)),
    }
}

// The value of an object: for an array the pointer to its first element, else what the object holds.
#[tactic(auto, unfolding(crate::specs::Objects::held))]
fn held(alloc: Global, table: &StructTable, object: Expr) -> Result<Expr, TypeRefusal>
    ensures { Yields (held table.now.list object.place (typed object) (shape_of object.ty)) result }
{
    let place = object.place;
    match &object.ty {
        CType::Array(element, _) => {
            let ty = pointer_to(alloc, element)?;
            let made = decay(alloc, place, ty, object)?;
            Ok(made)
        }
        ty => {
            if !is_complete(table, ty) {
                return Err(TypeRefusal::Code(TypeCode::IncompleteType, place));
            }
            let ty = ty.copy(alloc)?;
            let made = load(alloc, place, ty, object)?;
            Ok(made)
        }
    }
}

/// Returns the value of an expression.
#[tactic(auto, unfolding(crate::specs::Objects::valued))]
pub fn valued(alloc: Global, table: &StructTable, value: Expr) -> Result<Expr, TypeRefusal>
    ensures { Yields (valued table.now.list (typed value)) result }
{
    if is_object(&*value.kind) {
        held(alloc, table, value)
    } else {
        Ok(value)
    }
}

/// Returns the value of an expression that must have one: its type isn't `void`.
#[tactic(auto, unfolding(crate::specs::Objects::operand))]
pub fn operand(alloc: Global, table: &StructTable, value: Expr) -> Result<Expr, TypeRefusal>
    ensures { Yields (operand table.now.list (typed value)) result }
{
    if is_void(&value.ty) {
        return Err(TypeRefusal::Code(TypeCode::VoidValue, value.place));
    }
    valued(alloc, table, value)
}
