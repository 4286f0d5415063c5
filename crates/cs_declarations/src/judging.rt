//! What the `=` of a declaration requires of the values after it (C11 6.7.9, paragraph 11).
ghost use Rattle.std.specs.Prelude.{◌≡◌};
ghost use Rattle.cs_types.specs.Shape.{shape_of};
ghost use Rattle.cs_ast.specs.declared.place.Place.{Place as AnyPlace};
ghost use Rattle.cs_scopes.specs.Verdicts.{Answers};
ghost use Rattle.cs_scopes.specs.Faults.{code_in};
ghost use Rattle.cs_ast.specs.TypedView.{typed, initial, initial_list};
ghost use Rattle.cs_declarations.specs.Initializers.{is_braceless, value_judged, item_judged, part_judged, parts_judged, initial_judged};
ghost use Rattle.cs_declarations.specs.View as view;
ghost use Rattle.cs_scopes.specs.Parts.{types_of};

use crate::storage::{Storage, is_admitted};
use cs_ast::Place;
use cs_ast::typed::expression::Expr;
use cs_ast::typed::statement::Initial;
use cs_expressions::{conversion_fault, converted};
use cs_scopes::{Context, Parts, TypeCode, TypeRefusal, least, parts_of};
use cs_types::CType;
use std::alloc::Global;

// A value converted to the type of its object, if an object of this storage may hold it.
fn value_judged(
    alloc: Global,
    context: &Context,
    storage: Storage,
    place: Place,
    ty: &CType,
    value: Expr,
) -> Result<Initial, TypeRefusal>
    ensures { Answers initial
        (value_judged context.now.model (view.storage storage) place (shape_of ty.now)
        (typed value)) result }
{
    let converted = converted(alloc, context.model, place, value, ty)?;
    if is_admitted(context.model, storage, &converted) {
        Ok(Initial::Value(converted))
    } else {
        Err(TypeRefusal::Code(TypeCode::Initializer, place))
    }
}

// Whether a value for an item of a list, not a struct itself, initializes the first member of a struct whose braces are
// omitted.
fn is_braceless(ty: &CType, value: &CType) -> bool
    ensures { result ≡ is_braceless (shape_of ty.now) (shape_of value.now) }
{
    match (ty, value) {
        (CType::Struct(_), CType::Struct(_)) => false,
        (CType::Struct(_), _) => true,
        _ => false,
    }
}

/// Returns the code at the `=` for a value, if it is wrong. A conversion keeps a constant constant.
pub fn value_fault(
    context: &Context,
    storage: Storage,
    ty: &CType,
    value: &Expr,
) -> Option<TypeCode>
    ensures { (at : AnyPlace) → result ≡ code_in (value_judged context.now.model
        (view.storage storage) at (shape_of ty.now) (typed value.now)) }
{
    match conversion_fault(context.model, value, ty) {
        Some(code) => Some(code),
        None if is_admitted(context.model, storage, value) => None,
        None => Some(TypeCode::Initializer),
    }
}

/// Returns the same for the value of an item of a list.
pub fn item_fault(context: &Context, storage: Storage, ty: &CType, value: &Expr) -> Option<TypeCode>
    ensures { (at : AnyPlace) → result ≡ code_in (item_judged context.now.model
        (view.storage storage) at (shape_of ty.now) (typed value.now)) }
{
    if is_braceless(ty, &value.ty) {
        return Some(TypeCode::Initializer);
    }
    value_fault(context, storage, ty, value)
}

// An item of a list, converted and checked at the `=`.
#[cycle(judging)]
fn part_judged(
    alloc: Global,
    context: &Context,
    storage: Storage,
    place: Place,
    ty: &CType,
    part: Initial,
) -> Result<Initial, TypeRefusal>
    ensures { Answers initial
        (part_judged context.now (view.storage storage) place (shape_of ty.now) (initial part))
        result }
{
    match part {
        Initial::Value(value) => {
            if is_braceless(ty, &value.ty) {
                return Err(TypeRefusal::Code(TypeCode::Initializer, place));
            }
            value_judged(alloc, context, storage, place, ty, value)
        }
        Initial::Text(bytes) => Ok(Initial::Text(bytes)),
        Initial::List(list) => {
            let judged = match parts_of(&context.table, ty) {
                Some(parts) => parts_judged(alloc, context, storage, place, parts, list)?,
                None => Vec::new(alloc),
            };
            Ok(Initial::List(judged))
        }
    }
}

// The same for each item: if several are wrong, the least code is reported.
#[cycle(judging)]
fn parts_judged(
    alloc: Global,
    context: &Context,
    storage: Storage,
    place: Place,
    parts: Parts,
    items: Vec<Initial>,
) -> Result<Vec<Initial>, TypeRefusal>
    ensures { Answers (λ list. initial_list list.items)
        (parts_judged context.now (view.storage storage) place (types_of parts.entry)
        (initial_list items.items)) result }
{
    let mut list = Vec::new(alloc);
    let mut wrong = None;
    let mut number = 0;
    for item in items {
        let Some(ty) = parts.ty(number) else {
            break;
        };
        number += 1;
        match part_judged(alloc, context, storage, place, ty, item) {
            Ok(judged) => list.push(judged)?,
            Err(TypeRefusal::Code(code, _)) => wrong = Some(least(code, wrong)),
            Err(TypeRefusal::Memory) => return Err(TypeRefusal::Memory),
        }
    }
    match wrong {
        Some(code) => Err(TypeRefusal::Code(code, place)),
        None => Ok(list),
    }
}

/// Returns a whole initializer, converted and checked at the `=`, or the code there.
pub fn judged(
    alloc: Global,
    context: &Context,
    storage: Storage,
    place: Place,
    ty: &CType,
    written: Initial,
) -> Result<Initial, TypeRefusal>
    ensures { Answers initial
        (initial_judged context.now (view.storage storage) place (shape_of ty.now)
        (initial written)) result }
{
    match written {
        Initial::Value(value) => value_judged(alloc, context, storage, place, ty, value),
        other => part_judged(alloc, context, storage, place, ty, other),
    }
}
