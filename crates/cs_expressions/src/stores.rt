//! Operators that store (C11 6.5.2.4, 6.5.3.1, 6.5.16).
ghost use Rattle.std.specs.Prelude.{◌≡◌, IfOk, Ok};
ghost use Rattle.cs_types.specs.Shape.{shape_of, integer};
ghost use Rattle.cs_ast.specs.declared.typed.operator.Gives.TheVariants.{New};
ghost use Rattle.cs_ast.specs.TypedTree.{Typed, Of, Update as UpdateForm};
ghost use Rattle.cs_expressions.specs.Integers.{in_type};
ghost use Rattle.cs_scopes.specs.Verdicts.{Verdict, Fine};
ghost use Rattle.cs_ast.specs.TypedView.{typed};
ghost use Rattle.cs_scopes.specs.Verdicts.{Yields};
ghost use Rattle.cs_expressions.specs.Stores.{is_stored_to, assignable, assigned_fault, assigned, is_additive, is_shift, updatable_as, updatable, updated_fault, weighed, led, moved_by_step, steppable, works_in, taken_in, updated, step_operator, stepped};

use crate::integers::in_type;
use crate::nodes::{assign, number, shift, update};
use crate::objects::is_object;
use cs_ast::Place;
use cs_ast::raw::operator::Step;
use cs_ast::typed::expression::Expr;
use cs_ast::typed::operator::{BinOp, Gives};
use cs_scopes::{TypeCode, TypeRefusal, direction_of, has_few_scalars, least};
use cs_types::{
    CType, DataModel, IntType, StructTable, is_array, is_complete, is_void, promote, usual,
};
use std::alloc::{AllocError, Global};

// Whether the expression is an lvalue that can be stored to.
fn is_stored_to(object: &Expr) -> bool
    ensures { result ≡ is_stored_to (typed object.now) }
{
    is_object(&*object.kind) && !is_array(&object.ty)
}

/// Returns the left side of `=`, if it is an lvalue and not an array.
#[tactic(auto, unfolding(crate::specs::Stores::assignable))]
pub fn assignable(place: Place, object: Expr) -> Result<Expr, TypeRefusal>
    ensures { Yields (assignable place (typed object)) result }
{
    if is_void(&object.ty) {
        return Err(TypeRefusal::Code(TypeCode::VoidValue, object.place));
    }
    if !is_stored_to(&object) {
        return Err(TypeRefusal::Code(TypeCode::NotLvalue, place));
    }
    Ok(object)
}

/// Returns what else `=` refuses in the type of its left side: it has to be complete, with so few scalars that
/// one store writes them.
#[tactic(auto, unfolding(crate::specs::Stores::assigned_fault))]
pub fn assigned_fault(table: &StructTable, ty: &CType) -> Option<TypeCode>
    ensures { result ≡ assigned_fault table.now.list (shape_of ty.now) }
{
    if !is_complete(table, ty) {
        return Some(TypeCode::IncompleteType);
    }
    if has_few_scalars(table, ty) {
        None
    } else {
        Some(TypeCode::TooManyScalars)
    }
}

/// Returns `=`.
pub fn assigned(alloc: Global, place: Place, object: Expr, value: Expr) -> Result<Expr, AllocError>
    ensures { IfOk result (λ made.
        assigned place (typed object) (typed value) ≡ Fine (typed made)) }
{
    let ty = object.ty.copy(alloc)?;
    let made = assign(alloc, place, ty, object, value)?;
    Ok(made)
}

// Whether the operator adds or subtracts.
fn is_additive(operator: BinOp) -> bool
    ensures { result ≡ is_additive operator }
{
    match operator {
        BinOp::Add | BinOp::Sub => true,
        _ => false,
    }
}

// Whether the operator shifts.
fn is_shift(operator: BinOp) -> bool
    ensures { result ≡ is_shift operator }
{
    match operator {
        BinOp::Shl | BinOp::Shr => true,
        _ => false,
    }
}

/// Returns the object of a compound assignment, or of a step, as far as both have the same rules.
#[tactic(auto, unfolding(crate::specs::Stores::updatable, crate::specs::Stores::updatable_as))]
pub fn updatable(operator: BinOp, place: Place, object: Expr) -> Result<Expr, TypeRefusal>
    ensures { Yields (updatable operator place (typed object)) result }
{
    if is_void(&object.ty) {
        return Err(TypeRefusal::Code(TypeCode::VoidValue, object.place));
    }
    if !is_stored_to(&object) {
        return Err(TypeRefusal::Code(TypeCode::NotLvalue, place));
    }
    match &object.ty {
        CType::Int(_) => Ok(object),
        CType::Pointer(_) if is_additive(operator) => Ok(object),
        _ => Err(TypeRefusal::Code(TypeCode::OperandTypes, place)),
    }
}

/// Returns what else a compound assignment or a step refuses in the type of its object: a pointer can only be
/// moved by complete elements.
#[tactic(auto, unfolding(crate::specs::Stores::updated_fault))]
pub fn updated_fault(table: &StructTable, ty: &CType) -> Option<TypeCode>
    ensures { result ≡ updated_fault table.now.list (shape_of ty.now) }
{
    match ty {
        CType::Pointer(target) if !is_complete(table, target) => Some(TypeCode::IncompleteType),
        _ => None,
    }
}

/// Returns a verdict at a position that may have another fault: the least code at the position is reported.
pub fn weighed(
    place: Place,
    fault: Option<TypeCode>,
    made: Result<Expr, TypeRefusal>,
) -> Result<Expr, TypeRefusal>
    ensures { (v : Verdict Typed) → Yields v made → Yields (weighed place fault v) result }
{
    let Some(code) = fault else {
        return made;
    };
    match made {
        Ok(_) => Err(TypeRefusal::Code(code, place)),
        Err(refusal) => match refusal {
            TypeRefusal::Code(other, _) => {
                Err(TypeRefusal::Code(least(code, Some(other)), place))
            }
            TypeRefusal::Memory => Err(TypeRefusal::Memory),
        },
    }
}

/// Returns the verdict on what follows a position that may have a fault: if both fail, the earlier position is
/// reported.
pub fn led(
    place: Place,
    fault: Option<TypeCode>,
    made: Result<Expr, TypeRefusal>,
) -> Result<Expr, TypeRefusal>
    ensures reported { (v : Verdict Typed) → Yields v made → Yields (led place fault v) result }
    ensures passed { IfOk result (λ value. made ≡ Ok value) }
{
    let Some(code) = fault else {
        return made;
    };
    match made {
        Ok(value) => Ok(value),
        Err(refusal) => match refusal {
            TypeRefusal::Code(_, _) => Err(TypeRefusal::Code(code, place)),
            TypeRefusal::Memory => Err(TypeRefusal::Memory),
        },
    }
}

/// Returns the object of a step.
#[tactic(auto, unfolding(crate::specs::Stores::steppable), using(cs_scopes::proofs::Lifting::lifts))]
pub fn steppable(
    table: &StructTable,
    operator: BinOp,
    place: Place,
    object: Expr,
) -> Result<Expr, TypeRefusal>
    ensures { Yields (steppable table.now.list operator place (typed object)) result }
{
    let object = updatable(operator, place, object)?;
    match updated_fault(table, &object.ty) {
        Some(code) => Err(TypeRefusal::Code(code, place)),
        None => Ok(object),
    }
}

// The type in which a compound assignment computes.
fn works_in(model: DataModel, operator: BinOp, object: IntType, value: IntType) -> IntType
    ensures { result ≡ works_in model operator object value }
{
    if is_shift(operator) {
        promote(model, object)
    } else {
        usual(model, object, value)
    }
}

// The type to which the right operand of a compound assignment is converted.
fn taken_in(model: DataModel, operator: BinOp, object: IntType, value: IntType) -> IntType
    ensures { result ≡ taken_in model operator object value }
{
    if is_shift(operator) {
        promote(model, value)
    } else {
        usual(model, object, value)
    }
}

/// Returns a compound assignment.
#[tactic(auto, unfolding(crate::specs::Stores::updated))]
pub fn updated(
    alloc: Global,
    model: DataModel,
    operator: BinOp,
    place: Place,
    object: Expr,
    value: Expr,
) -> Result<Expr, TypeRefusal>
    ensures { Yields (updated model operator place (typed object) (typed value) (shape_of object.ty)
        (shape_of value.ty)) result }
{
    match (&object.ty, &value.ty) {
        (CType::Int(one), CType::Int(other)) => {
            let (one, other) = (*one, *other);
            let made = update_by(alloc, model, operator, place, object, value, one, other)?;
            Ok(made)
        }
        (CType::Pointer(_), CType::Int(_)) => {
            let ty = object.ty.copy(alloc)?;
            let (direction, gives) = (direction_of(operator), Gives::New);
            let made = shift(alloc, place, ty, object, value, direction, gives)?;
            Ok(made)
        }
        _ => Err(TypeRefusal::Code(TypeCode::OperandTypes, place)),
    }
}

// A compound assignment of an integer of the type `other` to an integer object of the type `one`.
fn update_by(
    alloc: Global,
    model: DataModel,
    operator: BinOp,
    place: Place,
    object: Expr,
    value: Expr,
    one: IntType,
    other: IntType,
) -> Result<Expr, AllocError>
    ensures { IfOk result (λ made.
        typed made ≡ Of place (integer one)
        (UpdateForm operator (typed object)
        (in_type place (taken_in model operator one other) (typed value))
        (works_in model operator one other) New)) }
{
    let value = in_type(alloc, place, taken_in(model, operator, one, other), value)?;
    let ty = works_in(model, operator, one, other);
    let made = update(alloc, place, one, operator, object, value, ty, Gives::New)?;
    Ok(made)
}

/// Returns the operator of a step.
pub fn step_operator(step: Step) -> BinOp
    ensures { result ≡ step_operator step }
{
    match step {
        Step::Up => BinOp::Add,
        Step::Down => BinOp::Sub,
    }
}

/// Returns a step of an object: the 1 has the promoted type of the object.
#[tactic(auto, unfolding(crate::specs::Stores::stepped))]
pub fn stepped(
    alloc: Global,
    model: DataModel,
    operator: BinOp,
    gives: Gives,
    place: Place,
    object: Expr,
) -> Result<Expr, TypeRefusal>
    ensures { Yields (stepped model operator gives place (typed object) (shape_of object.ty))
        result }
{
    match &object.ty {
        CType::Int(ty) => {
            let ty = *ty;
            let works_in = promote(model, ty);
            let one = number(alloc, place, works_in, 1)?;
            let made = update(alloc, place, ty, operator, object, one, works_in, gives)?;
            Ok(made)
        }
        CType::Pointer(_) => {
            let ty = object.ty.copy(alloc)?;
            let one = number(alloc, place, IntType::Int, 1)?;
            let made = shift(alloc, place, ty, object, one, direction_of(operator), gives)?;
            Ok(made)
        }
        _ => Err(TypeRefusal::Code(TypeCode::OperandTypes, place)),
    }
}
